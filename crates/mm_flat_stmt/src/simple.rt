//! The code of statements that hold no others and call nothing.
ghost use Rattle.std.specs.Prelude.{◌≡◌, ◌+◌, OnOk};
ghost use Rattle.mm_flow.specs.Flow.{Goto, Mark, size};
ghost use Rattle.mm_flow.specs.Statements.{started, stmt_code};
ghost use Rattle.mm_flow.specs.reading.Assembling.{count, doing, done, with_flow};

use crate::numbers::{label_of, mutex, thread_in};
use crate::updates::{assertion, assumption, update};
use mm_flow::assembler::{Assembler, Piece};
use mm_flow::context::Context;
use mm_goto::{At, Ident, Instr, NoMemory};
use mm_tree::{Stmt, StmtNode};
use std::alloc::Global;

/// A label of the text.
#[tactic(auto, using(mm_flow::proofs::Grows::emit_size))]
pub fn mark(context: &Context<'_>, code: &mut Assembler, x: &Ident) -> Result<(), NoMemory>
    ensures code { OnOk result (code.new ≡ with_flow context.now (Mark x.now) code.old) }
    ensures count { OnOk result (count code.new ≡ count code.old) }
{
    match label_of(context, x)? {
        Some(l) => code.mark(l),
        None => Ok(()),
    }
}

/// The code of a `goto`.
fn go_to(context: &Context<'_>, code: &mut Assembler, at: At, x: &Ident) -> Result<(), NoMemory>
    ensures code { OnOk result (code.new ≡ with_flow context.now (Goto at x.now) code.old) }
{
    match label_of(context, x)? {
        Some(l) => code.put(Piece::Jump(at, l)),
        None => code.put(Piece::Do(at, Instr::Jump(0))),
    }
}

/// The code of a create.
fn create(context: &Context<'_>, code: &mut Assembler, at: At) -> Result<(), NoMemory>
    ensures code { OnOk result (code.new ≡ done context.now (started at code.old.known) code.old) }
{
    let thread = code.pass_create()?;
    code.put(Piece::Do(at, Instr::Start(thread)))
}

/// The code of a statement that holds no others and calls nothing. Of any other it makes none.
#[tactic(auto, using(mm_flow::proofs::Grows::emit_size))]
pub fn simple(
    alloc: Global,
    context: &Context<'_>,
    code: &mut Assembler,
    s: &Stmt,
) -> Result<(), NoMemory>
    ensures code { OnOk result (code.new ≡ done context.now (doing context.now (stmt_code s.now) code.old) code.old) }
    ensures names { OnOk result (code.new.known.names ≡ code.old.known.names) }
    ensures count { OnOk result (count code.new ≡ count code.old + size (doing context.now (stmt_code s.now) code.old).flow) }
{
    one(alloc, context, code, s)?;
    Ok(())
}

#[tactic(auto, unfolding(mm_flow::specs::Statements::stmt_code))]
fn one(alloc: Global, context: &Context<'_>, code: &mut Assembler, s: &Stmt) -> Result<(), NoMemory>
    ensures code { OnOk result (code.new ≡ done context.now (doing context.now (stmt_code s.now) code.old) code.old) }
    ensures names { OnOk result (code.new.known.names ≡ code.old.known.names) }
{
    match &s.node {
        StmtNode::Empty | StmtNode::DeclareThread(_) => Ok(()),
        StmtNode::Update(left, op, e) => update(alloc, context, code, left.get(), *op, e.get()),
        StmtNode::Break => code.put(Piece::Jump(s.at, context.exits.behind)),
        StmtNode::Continue => code.put(Piece::Jump(s.at, context.exits.next)),
        StmtNode::Assert(e, text) => assertion(alloc, context, code, s.at, e.get(), text),
        StmtNode::Assume(e) => assumption(alloc, context, code, s.at, e.get()),
        StmtNode::Fence => code.put(Piece::Do(s.at, Instr::Fence)),
        StmtNode::Lock(x) => {
            let m = mutex(context.parts, x)?;
            code.put(Piece::Do(s.at, Instr::Lock(m)))
        }
        StmtNode::Unlock(x) => {
            let m = mutex(context.parts, x)?;
            code.put(Piece::Do(s.at, Instr::Unlock(m)))
        }
        StmtNode::Start(_, _) => create(context, code, s.at),
        StmtNode::Join(x) => {
            let thread = thread_in(context.parts.starts(), code.seen().starts, &x.name)?;
            code.put(Piece::Do(s.at, Instr::Join(thread)))
        }
        StmtNode::Goto(x) => go_to(context, code, s.at, &x.name),
        StmtNode::AtomBegin => code.put(Piece::Do(s.at, Instr::AtomBegin)),
        StmtNode::AtomEnd => code.put(Piece::Do(s.at, Instr::AtomEnd)),
        StmtNode::Block(_)
        | StmtNode::Declare(_)
        | StmtNode::Assign(_, _)
        | StmtNode::Do(_)
        | StmtNode::If(_, _, _)
        | StmtNode::While(_, _)
        | StmtNode::DoWhile(_, _)
        | StmtNode::For(_, _, _, _)
        | StmtNode::Return(_)
        | StmtNode::Label(_, _) => Err(NoMemory),
    }
}
