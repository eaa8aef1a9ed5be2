ghost use Rattle.std.specs.Prelude.{◌≡◌, ◌↔◌, ℕ, ◌<◌, ◌≤◌, ◌^◌, length, IsTrue, IfOk, Some, slice_get, slice_index_or, []};
ghost use Rattle.mm_bits.specs.Words.{Has};
ghost use Rattle.mm_goto.specs.declared.program.Instr.{Instr};
ghost use Rattle.mm_goto.specs.declared.program.Instr.TheVariants.{Join};
ghost use Rattle.mm_goto.specs.declared.program.Thread.{Thread};
ghost use Rattle.mm_delay.specs.reading.Points.{IsPoint, MarksPoints};
ghost use Rattle.mm_delay.specs.reading.Sets.{Raised};

use mm_bits::Numbers;
use mm_goto::{Instr, List, Model, NoMemory, Thread};
use std::alloc::Global;

/// What is known of an instruction: whether it may be to a cell of a buffered store, whether it is one, and whether its thread
/// has one.
#[derive(Clone, Copy)]
struct Known {
    near: bool,
    own: bool,
    thread: bool,
}

/// Whether pending stores may be flushed before the instruction. `threads` has the threads with buffered stores.
fn is_point(model: Model, known: Known, threads: &Numbers, it: &Instr) -> bool
    requires { (u : ℕ) → it.now ≡ Join u → u < 1024 }
    ensures { IsTrue result ↔ IsPoint model (IsTrue known.near) (IsTrue known.own) (IsTrue known.thread) (Has threads.now.words) it.now }
{
    match it {
        Instr::Load(..) => known.near,
        Instr::Store(..) => known.own || known.near || (model == Model::Tso && known.thread),
        Instr::Add(..) | Instr::Cas(..) => known.near || known.thread,
        Instr::Fence | Instr::Lock(_) | Instr::Unlock(_) | Instr::Start(_) => known.thread,
        Instr::Join(u) => known.thread || threads.has(*u),
        Instr::Set(..)
        | Instr::Input(_)
        | Instr::Jump(_)
        | Instr::Branch(..)
        | Instr::Assert(..)
        | Instr::Assume(_)
        | Instr::AtomBegin
        | Instr::AtomEnd
        | Instr::End => false,
    }
}

/// For each instruction, whether pending stores may be flushed before it. `near` and `own` have a flag for each.
fn row_of(
    alloc: Global,
    model: Model,
    code: &[Instr],
    near: &[bool],
    own: &[bool],
    thread: bool,
    threads: &Numbers,
) -> Result<Vec<bool>, NoMemory>
    requires near { length near.now ≡ length code.now }
    requires own { length own.now ≡ length code.now }
    requires joins { (k u : ℕ) → slice_get code.now k ≡ Some (Join u) → u < 1024 }
    ensures { IfOk result (λ row. MarksPoints model code.now near.now own.now (IsTrue thread) (Has threads.now.words) row.items) }
{
    let mut row = Vec::new(alloc);
    'code: for k in 0..code.len() {
        let known = Known {
            near: near[k],
            own: own[k],
            thread,
        };
        row.push(is_point(model, known, threads, &code[k]))?;
    }
    Ok(row)
}

/// For each instruction of each thread, whether pending stores may be flushed before it.
pub fn points(
    alloc: Global,
    model: Model,
    code: &[Thread],
    near: &[List<bool>],
    own: &[List<bool>],
    threads: &Numbers,
) -> Result<Vec<List<bool>>, NoMemory>
    requires few { length code.now ≤ 1024 }
    requires near { length near.now ≡ length code.now }
    requires own { length own.now ≡ length code.now }
    requires rows { (t : ℕ) (thread : Thread) → slice_get code.now t ≡ Some thread → (length (slice_index_or near.now t []) ≡ length thread.code) × (length (slice_index_or own.now t []) ≡ length thread.code) }
    requires joins { (t k u : ℕ) (thread : Thread) → slice_get code.now t ≡ Some thread → slice_get thread.code k ≡ Some (Join u) → u < 1024 }
    ensures size { IfOk result (λ rows. length rows.items ≡ length code.now) }
    ensures each { IfOk result (λ rows. (t : ℕ) (thread : Thread) → slice_get code.now t ≡ Some thread
        → MarksPoints model thread.code (slice_index_or near.now t []) (slice_index_or own.now t []) (Has threads.now.words t) (Has threads.now.words) (slice_index_or rows.items t [])) }
{
    let mut rows = Vec::new(alloc);
    'threads: for t in 0..code.len() {
        let row = row_of(
            alloc,
            model,
            code[t].code.items(),
            near[t].items(),
            own[t].items(),
            threads.has(t as u32),
            threads,
        )?;
        rows.push(List::new(row))?;
    }
    Ok(rows)
}
