//! Instructions where no store is buffered.
ghost use Rattle.std.specs.Prelude.{◌≡◌, ◌∷◌, ◌++◌, [], IfOk};
ghost use Rattle.mm_words.specs.Words.{assert, assign_call, go_to, join, lock, num, return, start, un, unlock, branch};
ghost use Rattle.mm_goto.specs.declared.pure.Unary.TheVariants.{Not};
ghost use Rattle.mm_helpers.specs.Helpers.{nondet_wm};
ghost use Rattle.mm_templates.specs.Names as names;
ghost use Rattle.mm_templates.specs.Expressions as expressions;
ghost use Rattle.mm_templates.specs.Instructions as specs;

use crate::expressions::printed;
use crate::names::{handle_name, label_name, local_name, thread_name};
use crate::updates::{added, local_assigned, swapped, value_at, written};
use mm_goto::{Ident, Instr, NoMemory, Program, Pure, Shape, Unary};
use mm_tree::Stmt;
use mm_words::{
    add, answer, assertion, assumption, branch, call_assigned, fence, join, jump, lock, natural,
    section, start, unary, unlock,
};
use sqlite_items::Boxed;
use std::alloc::Global;

/// One statement.
pub fn alone(alloc: Global, s: Boxed<Stmt>) -> Result<Vec<Stmt>, NoMemory>
    ensures { IfOk result (λ stmts. stmts.items ≡ s ∷ []) }
{
    let mut stmts = Vec::new(alloc);
    add(&mut stmts, s)?;
    Ok(stmts)
}

/// Puts the statements at the end.
pub fn append<T: Drop>(to: &mut Vec<T>, rest: Vec<T>) -> Result<(), NoMemory>
    ensures { IfOk result (λ u. to.new.items ≡ to.old.items ++ rest.items) }
{
    for one in rest {
        to.push(one)?;
    }
    Ok(())
}

fn input(alloc: Global, l: u32) -> Result<Boxed<Stmt>, NoMemory>
    ensures { IfOk result (λ s. s ≡ assign_call (names.local_name l) nondet_wm []) }
{
    let name = local_name(alloc, l)?;
    call_assigned(alloc, name.text(), "nondet_wm", Vec::new(alloc))
}

fn jumped(alloc: Global, k: u32) -> Result<Boxed<Stmt>, NoMemory>
    ensures { IfOk result (λ s. s ≡ go_to (names.label_name k)) }
{
    let label = label_name(alloc, k)?;
    jump(alloc, label.text())
}

fn branched(alloc: Global, e: &Pure, k: u32) -> Result<Boxed<Stmt>, NoMemory>
    ensures { IfOk result (λ s. s ≡ branch (un Not (expressions.printed e.now)) (names.label_name k)) }
{
    let test = unary(alloc, Unary::Not, printed(alloc, e)?)?;
    let label = label_name(alloc, k)?;
    branch(alloc, test, label.text())
}

// The name of a mutex.
fn mutex_name(mutexes: &[Ident], m: u32) -> &str
    ensures { result.now ≡ specs.mutex_name mutexes.now m }
{
    match mutexes.get(m as usize) {
        Some(name) => name.text(),
        None => "",
    }
}

/// Starts a thread.
pub fn started(alloc: Global, u: u32) -> Result<Boxed<Stmt>, NoMemory>
    ensures { IfOk result (λ s. s ≡ start (names.handle_name u) (names.thread_name u)) }
{
    let handle = handle_name(alloc, u)?;
    let function = thread_name(alloc, u)?;
    start(alloc, handle.text(), function.text())
}

/// Waits for a thread.
pub fn joined(alloc: Global, u: u32) -> Result<Boxed<Stmt>, NoMemory>
    ensures { IfOk result (λ s. s ≡ join (names.handle_name u)) }
{
    let handle = handle_name(alloc, u)?;
    join(alloc, handle.text())
}

/// Locks a mutex.
pub fn locked(alloc: Global, mutexes: &[Ident], m: u32) -> Result<Boxed<Stmt>, NoMemory>
    ensures { IfOk result (λ s. s ≡ lock (specs.mutex_name mutexes.now m)) }
{
    lock(alloc, mutex_name(mutexes, m))
}

/// Unlocks a mutex.
pub fn unlocked(alloc: Global, mutexes: &[Ident], m: u32) -> Result<Boxed<Stmt>, NoMemory>
    ensures { IfOk result (λ s. s ≡ unlock (specs.mutex_name mutexes.now m)) }
{
    unlock(alloc, mutex_name(mutexes, m))
}

/// An instruction where no store is buffered.
pub fn plain(
    alloc: Global,
    program: &Program,
    shape: &Shape,
    it: &Instr,
) -> Result<Vec<Stmt>, NoMemory>
    ensures { IfOk result (λ stmts. stmts.items ≡ specs.plain program.now shape.now it.now) }
{
    match it {
        Instr::Set(l, e) => alone(alloc, local_assigned(alloc, *l, printed(alloc, e)?)?),
        Instr::Load(l, target) => alone(
            alloc,
            local_assigned(alloc, *l, value_at(alloc, program, shape, target)?)?,
        ),
        Instr::Store(target, e) => alone(
            alloc,
            written(alloc, program, shape, target, printed(alloc, e)?)?,
        ),
        Instr::Input(l) => alone(alloc, input(alloc, *l)?),
        Instr::Jump(k) => alone(alloc, jumped(alloc, *k)?),
        Instr::Branch(e, k) => alone(alloc, branched(alloc, e, *k)?),
        Instr::Assert(e, n) => alone(alloc, assertion(alloc, printed(alloc, e)?, *n)?),
        Instr::Assume(e) => alone(alloc, assumption(alloc, printed(alloc, e)?)?),
        Instr::Fence => alone(alloc, fence(alloc)?),
        Instr::Lock(m) => alone(alloc, locked(alloc, program.mutexes(), *m)?),
        Instr::Unlock(m) => alone(alloc, unlocked(alloc, program.mutexes(), *m)?),
        Instr::Add(l, target, e) => section(alloc, added(alloc, program, shape, *l, target, e)?),
        Instr::Cas(l, target, e, f) => section(
            alloc,
            swapped(alloc, program, shape, *l, target, e, f)?,
        ),
        Instr::Start(u) => alone(alloc, started(alloc, *u)?),
        Instr::Join(u) => alone(alloc, joined(alloc, *u)?),
        Instr::AtomBegin => Ok(Vec::new(alloc)),
        Instr::AtomEnd => Ok(Vec::new(alloc)),
        Instr::End => alone(alloc, answer(alloc, natural(alloc, 0)?)?),
    }
}
