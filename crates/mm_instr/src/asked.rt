//! What is asked of the whole program once.
ghost use Rattle.std.specs.Prelude.{◌≡◌, ◌+◌, IfOk};
ghost use Rattle.std.specs.List.{list_any};
ghost use Rattle.mm_goto.specs.Checks.{target_exprs};
ghost use Rattle.mm_goto.specs.Sourcelike.{exprs_of};
ghost use Rattle.mm_instr.specs.Woven as specs;

use mm_goto::{Cell, Instr, NoMemory, Program, Pure, Shape, Target, Thread};

/// The number behind another. Programs are far smaller than the limit, or there would be no memory for them.
pub fn next(n: u32) -> Result<u32, NoMemory>
    ensures { IfOk result (λ m. m ≡ n + 1) }
{
    n.checked_add(1).ok_or(NoMemory)
}

/// Whether some flag is up.
pub fn some(flags: &[bool]) -> bool
    ensures { result ≡ list_any (λ b. b) flags.now }
{
    flags.iter().any(|b| *b)
}

/// Whether some store is buffered.
pub fn has_buffers(shape: &Shape) -> bool
    ensures { result ≡ specs.has_buffers shape.now }
{
    shape.buffered.items().iter().any(|row| some(row.items()))
}

/// Whether some cell lives in the shared array.
pub fn has_moved_cells(shape: &Shape) -> bool
    ensures { result ≡ specs.has_moved_cells shape.now }
{
    some(shape.moved.items())
}

// Whether an address stands in the expression.
fn takes_address(e: &Pure) -> bool
    ensures { result ≡ specs.takes_address e.now }
{
    match e {
        Pure::Const(_) => false,
        Pure::Local(_) => false,
        Pure::Addr(_) => true,
        Pure::AddrElem { .. } => true,
        Pure::Un(_, x) => takes_address(x.get()),
        Pure::Bin(_, x, y) => takes_address(x.get()) || takes_address(y.get()),
        Pure::Cond(x, y, z) => takes_address(x.get())
            || takes_address(y.get())
            || takes_address(z.get()),
    }
}

fn target_takes_address(target: &Target) -> bool
    ensures { result ≡ list_any specs.takes_address (target_exprs target.now) }
{
    match target {
        Target::Cell(_) => false,
        Target::Elem { index, .. } => takes_address(index),
        Target::Deref(e) => takes_address(e),
    }
}

// Whether an address stands in the instruction.
fn instr_takes_address(it: &Instr) -> bool
    ensures { result ≡ list_any specs.takes_address (exprs_of it.now) }
{
    match it {
        Instr::Set(_, e) => takes_address(e),
        Instr::Load(_, target) => target_takes_address(target),
        Instr::Store(target, e) => target_takes_address(target) || takes_address(e),
        Instr::Branch(e, _) => takes_address(e),
        Instr::Assert(e, _) => takes_address(e),
        Instr::Assume(e) => takes_address(e),
        Instr::Add(_, target, e) => target_takes_address(target) || takes_address(e),
        Instr::Cas(_, target, e, f) => target_takes_address(target)
            || takes_address(e)
            || takes_address(f),
        Instr::Input(_)
        | Instr::Jump(_)
        | Instr::Fence
        | Instr::Lock(_)
        | Instr::Unlock(_)
        | Instr::Start(_)
        | Instr::Join(_)
        | Instr::AtomBegin
        | Instr::AtomEnd
        | Instr::End => false,
    }
}

fn thread_takes_address(thread: &Thread) -> bool
    ensures { result ≡ specs.code_takes_address thread.now.code }
{
    thread.code.items().iter().any(|it| instr_takes_address(it))
}

fn cells_take_address(cells: &[Cell]) -> bool
    ensures { result ≡ list_any (λ cell. specs.takes_address cell.init) cells.now }
{
    cells.iter().any(|cell| takes_address(&cell.init))
}

fn threads_take_address(threads: &[Thread]) -> bool
    ensures { result ≡ list_any (λ thread. specs.code_takes_address thread.code) threads.now }
{
    threads.iter().any(|thread| thread_takes_address(thread))
}

/// Whether an address stands in the program or in a start value.
pub fn has_address(program: &Program) -> bool
    ensures { result ≡ specs.has_address program.now }
{
    cells_take_address(program.cells()) || threads_take_address(program.threads())
}
