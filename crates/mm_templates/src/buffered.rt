//! Instructions where some store of the program is buffered.
ghost use Rattle.std.specs.Prelude.{◌≡◌, ◌∷◌, ◌++◌, [], List, ℕ, IfOk};
ghost use Rattle.mm_goto.specs.Shapes.{flag_at};
ghost use Rattle.mm_words.specs.Words.{call, num};
ghost use Rattle.mm_helpers.specs.Helpers.{wm_put, wm_set, wm_get};
ghost use Rattle.mm_words.specs.Words.{assign_call, join};
ghost use Rattle.mm_words.specs.Words as words;
ghost use Rattle.mm_templates.specs.Expressions as expressions;
ghost use Rattle.mm_templates.specs.Names as names;
ghost use Rattle.mm_templates.specs.Instructions as specs;

use crate::expressions::{cell_number, count, printed};
use crate::homes::is_moved;
use crate::names::local_name;
use crate::plain::{alone, append, joined, locked, plain, started, unlocked};
use crate::updates::{added, local_assigned, swapped, value_at, written};
use mm_goto::{Instr, List, Model, NoMemory, Program, Pure, Shape, Target};
use mm_tree::{Expr, Stmt};
use mm_words::{add, call_assigned, call_of, call_with, fence, section};
use sqlite_items::Boxed;
use std::alloc::Global;

// The flag of an instruction.
fn is_flagged(flags: &[List<bool>], t: u32, i: u32) -> bool
    ensures { result ≡ flag_at flags.now t i }
{
    match flags.get(t as usize) {
        Some(row) => row.items().get(i as usize).copied().unwrap_or(false),
        None => false,
    }
}

// What stands at the head of a section: a flush at a flush point.
fn flushed(alloc: Global, points: &[List<bool>], t: u32, i: u32) -> Result<Vec<Stmt>, NoMemory>
    ensures { IfOk result (λ stmts. stmts.items ≡ specs.flushed points.now t i) }
{
    let mut stmts = Vec::new(alloc);
    if is_flagged(points, t, i) {
        add(&mut stmts, call_with(alloc, "wm_flush", Vec::new(alloc))?)?;
    }
    Ok(stmts)
}

// Waits until no store of the thread is pending.
fn emptied(alloc: Global, u: u32) -> Result<Boxed<Stmt>, NoMemory>
    ensures { IfOk result (λ s. s ≡ specs.emptied u) }
{
    call_of(alloc, "wm_empty", count(alloc, u)?)
}

// The head of a section that waits for the thread's own stores.
fn waited(alloc: Global, points: &[List<bool>], t: u32, i: u32) -> Result<Vec<Stmt>, NoMemory>
    ensures { IfOk result (λ stmts. stmts.items ≡ specs.flushed points.now t i ++ specs.emptied t ∷ []) }
{
    let mut stmts = flushed(alloc, points, t, i)?;
    add(&mut stmts, emptied(alloc, t)?)?;
    Ok(stmts)
}

// The same with more statements in the section.
fn drained(
    alloc: Global,
    points: &[List<bool>],
    t: u32,
    i: u32,
    rest: Vec<Stmt>,
) -> Result<Vec<Stmt>, NoMemory>
    ensures { IfOk result (λ stmts. stmts.items ≡ specs.drained points.now t i rest.items) }
{
    let mut stmts = waited(alloc, points, t, i)?;
    append(&mut stmts, rest)?;
    section(alloc, stmts)
}

// The wait for the thread's own stores, in a section of its own, and a statement behind it.
fn drained_first(
    alloc: Global,
    points: &[List<bool>],
    t: u32,
    i: u32,
    then: Boxed<Stmt>,
) -> Result<Vec<Stmt>, NoMemory>
    ensures { IfOk result (λ stmts. stmts.items ≡ specs.drained points.now t i [] ++ then ∷ []) }
{
    let mut stmts = section(alloc, waited(alloc, points, t, i)?)?;
    add(&mut stmts, then)?;
    Ok(stmts)
}

// A join, and behind it the wait for the stores of both threads.
fn drained_behind(
    alloc: Global,
    points: &[List<bool>],
    t: u32,
    i: u32,
    u: u32,
) -> Result<Vec<Stmt>, NoMemory>
    ensures { IfOk result (λ stmts. stmts.items ≡ join (names.handle_name u) ∷ specs.drained points.now t i (specs.emptied u ∷ [])) }
{
    let mut stmts = alone(alloc, joined(alloc, u)?)?;
    let rest = alone(alloc, emptied(alloc, u)?)?;
    append(&mut stmts, drained(alloc, points, t, i, rest)?)?;
    Ok(stmts)
}

// What the thread has of the target: its newest pending store, or else memory.
fn loaded(
    alloc: Global,
    program: &Program,
    shape: &Shape,
    t: u32,
    l: u32,
    target: &Target,
) -> Result<Boxed<Stmt>, NoMemory>
    ensures { IfOk result (λ s. s ≡ specs.loaded program.now shape.now t l target.now) }
{
    if is_moved(shape.moved.items(), target) {
        let name = local_name(alloc, l)?;
        let mut arguments = Vec::new(alloc);
        add(&mut arguments, count(alloc, t)?)?;
        add(&mut arguments, cell_number(alloc, target)?)?;
        call_assigned(alloc, name.text(), "wm_get", arguments)
    } else {
        local_assigned(alloc, l, value_at(alloc, program, shape, target)?)
    }
}

// wm_put or wm_set of the thread, the target's cell and the value.
fn handed(
    alloc: Global,
    helper: &str,
    t: u32,
    target: &Target,
    e: &Pure,
) -> Result<Vec<Stmt>, NoMemory>
    ensures { IfOk result (λ stmts. stmts.items ≡ call helper.now (num t ∷ expressions.cell_number target.now ∷ expressions.printed e.now ∷ []) ∷ []) }
{
    let mut arguments = Vec::new(alloc);
    add(&mut arguments, count(alloc, t)?)?;
    add(&mut arguments, cell_number(alloc, target)?)?;
    add(&mut arguments, printed(alloc, e)?)?;
    alone(alloc, call_with(alloc, helper, arguments)?)
}

// A store to a cell that has not moved.
fn direct(
    alloc: Global,
    program: &Program,
    shape: &Shape,
    t: u32,
    target: &Target,
    e: &Pure,
) -> Result<Vec<Stmt>, NoMemory>
    ensures { IfOk result (λ stmts. stmts.items ≡ specs.emptied_before shape.now.model t ++ specs.written program.now shape.now target.now (expressions.printed e.now) ∷ []) }
{
    let mut stmts = Vec::new(alloc);
    match shape.model {
        Model::Tso => add(&mut stmts, emptied(alloc, t)?)?,
        Model::Pso => {}
    }
    add(
        &mut stmts,
        written(alloc, program, shape, target, printed(alloc, e)?)?,
    )?;
    Ok(stmts)
}

// A store, buffered or not.
fn stored(
    alloc: Global,
    program: &Program,
    shape: &Shape,
    t: u32,
    i: u32,
    target: &Target,
    e: &Pure,
) -> Result<Vec<Stmt>, NoMemory>
    ensures { IfOk result (λ stmts. stmts.items ≡ specs.stored program.now shape.now t i target.now e.now) }
{
    if is_flagged(shape.buffered.items(), t, i) {
        handed(alloc, "wm_put", t, target, e)
    } else if is_moved(shape.moved.items(), target) {
        handed(alloc, "wm_set", t, target, e)
    } else {
        direct(alloc, program, shape, t, target, e)
    }
}

fn load_section(
    alloc: Global,
    program: &Program,
    shape: &Shape,
    t: u32,
    i: u32,
    l: u32,
    target: &Target,
) -> Result<Vec<Stmt>, NoMemory>
    ensures { IfOk result (λ stmts. stmts.items ≡ words.section (specs.flushed shape.now.points t i ++ specs.loaded program.now shape.now t l target.now ∷ [])) }
{
    let mut stmts = flushed(alloc, shape.points.items(), t, i)?;
    add(&mut stmts, loaded(alloc, program, shape, t, l, target)?)?;
    section(alloc, stmts)
}

fn store_section(
    alloc: Global,
    program: &Program,
    shape: &Shape,
    t: u32,
    i: u32,
    target: &Target,
    e: &Pure,
) -> Result<Vec<Stmt>, NoMemory>
    ensures { IfOk result (λ stmts. stmts.items ≡ words.section (specs.flushed shape.now.points t i ++ specs.stored program.now shape.now t i target.now e.now)) }
{
    let mut stmts = flushed(alloc, shape.points.items(), t, i)?;
    append(&mut stmts, stored(alloc, program, shape, t, i, target, e)?)?;
    section(alloc, stmts)
}

/// An instruction of a thread, where some store of the program is buffered.
pub fn with_buffers(
    alloc: Global,
    program: &Program,
    shape: &Shape,
    t: u32,
    i: u32,
    it: &Instr,
) -> Result<Vec<Stmt>, NoMemory>
    ensures { IfOk result (λ stmts. stmts.items ≡ specs.with_buffers program.now shape.now t i it.now) }
{
    let points = shape.points.items();
    match it {
        Instr::Load(l, target) => load_section(alloc, program, shape, t, i, *l, target),
        Instr::Store(target, e) => store_section(alloc, program, shape, t, i, target, e),
        Instr::Add(l, target, e) => drained(
            alloc,
            points,
            t,
            i,
            added(alloc, program, shape, *l, target, e)?,
        ),
        Instr::Cas(l, target, e, f) => drained(
            alloc,
            points,
            t,
            i,
            swapped(alloc, program, shape, *l, target, e, f)?,
        ),
        Instr::Fence => drained_first(alloc, points, t, i, fence(alloc)?),
        Instr::Lock(m) => drained_first(alloc, points, t, i, locked(alloc, program.mutexes(), *m)?),
        Instr::Unlock(m) => drained_first(
            alloc,
            points,
            t,
            i,
            unlocked(alloc, program.mutexes(), *m)?,
        ),
        Instr::Start(u) => drained_first(alloc, points, t, i, started(alloc, *u)?),
        Instr::Join(u) => drained_behind(alloc, points, t, i, *u),
        Instr::Set(..)
        | Instr::Input(..)
        | Instr::Jump(..)
        | Instr::Branch(..)
        | Instr::Assert(..)
        | Instr::Assume(..)
        | Instr::AtomBegin
        | Instr::AtomEnd
        | Instr::End => plain(alloc, program, shape, it),
    }
}
