ghost use Rattle.std.specs.Prelude.{◌≡◌, ℕ, ◌+◌, ◌*◌, ◌<◌, ◌^◌, length, slice_get, slice_index_or, [], IfOk, IfSome, All};
ghost use Rattle.mm_points.specs.Sets.{Linked};
ghost use Rattle.mm_points.specs.Cells.{AreCells};
ghost use Rattle.mm_points.specs.reading.Rules.{InAim, IsAimIn};
ghost use Rattle.mm_points.specs.reading.Ruled.{aim_to};
ghost use Rattle.mm_points.specs.reading.Listed.{OnTarget, IsTargeted, AreListed, AreInRange};

use crate::cell_set::CellSet;
use crate::gathering::value_of;
use crate::ruled::aim_to;
use mm_goto::{Instr, List, NoMemory, Target, Thread};
use std::alloc::Global;

/// The cells that the target may name.
fn cells_to(alloc: Global, sets: &[CellSet], base: u32, to: &Target) -> Result<List<u32>, NoMemory>
    requires few { length sets.now < 2 ^ 32 }
    requires fits { IsAimIn (length sets.now) (aim_to base to.now) }
    ensures { IfOk result (AreCells (InAim (Linked sets.now) (aim_to base to.now))) }
{
    let aim = aim_to(alloc, base, to)?;
    let found = value_of(alloc, sets, &aim)?;
    Ok(List::new(found.into_items()))
}

/// The cells that the instruction's target may name, and none where it has no target.
fn cells_of(alloc: Global, sets: &[CellSet], base: u32, it: &Instr) -> Result<List<u32>, NoMemory>
    requires few { length sets.now < 2 ^ 32 }
    requires fits { OnTarget (λ to. IsAimIn (length sets.now) (aim_to base to)) it.now }
    ensures { IfOk result (AreCells (IsTargeted (Linked sets.now) base it.now)) }
{
    match it {
        Instr::Load(_, to) => cells_to(alloc, sets, base, to),
        Instr::Store(to, _) => cells_to(alloc, sets, base, to),
        Instr::Add(_, to, _) => cells_to(alloc, sets, base, to),
        Instr::Cas(_, to, _, _) => cells_to(alloc, sets, base, to),
        _ => Ok(List::new(Vec::new(alloc))),
    }
}

/// The cells of each instruction.
fn list_code(
    alloc: Global,
    sets: &[CellSet],
    base: u32,
    code: &[Instr],
) -> Result<List<List<u32>>, NoMemory>
    requires few { length sets.now < 2 ^ 32 }
    requires fits { AreInRange (length sets.now) base code.now }
    ensures { IfOk result (λ lists. AreListed (Linked sets.now) base code.now (length code.now) lists) }
{
    let mut lists = Vec::new(alloc);
    'code: for i in 0..code.len() {
        let cells = cells_of(alloc, sets, base, &code[i])?;
        lists.push(cells)?;
    }
    Ok(List::new(lists))
}

/// The cells of each instruction of each thread.
pub fn list_threads(
    alloc: Global,
    sets: &[CellSet],
    base: u32,
    step: u32,
    threads: &[Thread],
) -> Result<List<List<List<u32>>>, NoMemory>
    requires few { length sets.now < 2 ^ 32 }
    requires all { base + length threads.now * step < 2 ^ 32 }
    requires fits { (t : ℕ) → IfSome (slice_get threads.now t) (λ thread. AreInRange (length sets.now) (base + t * step) thread.code) }
    ensures size { IfOk result (λ table. length table ≡ length threads.now) }
    ensures lists { IfOk result (λ table. (t : ℕ) → IfSome (slice_get threads.now t) (λ thread. AreListed (Linked sets.now) (base + t * step) thread.code (length thread.code) (slice_index_or table t []))) }
{
    let mut table = Vec::new(alloc);
    let mut here = base;
    'threads: for t in 0..threads.len() {
        let lists = list_code(alloc, sets, here, threads[t].code.items())?;
        table.push(lists)?;
        here += step;
    }
    Ok(List::new(table))
}
