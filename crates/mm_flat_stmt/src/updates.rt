//! Updates, assertions, and what holds an expression alone.
ghost use Rattle.std.specs.Prelude.{◌≡◌, ◌+◌, IfOk, OnOk};
ghost use Rattle.mm_flow.specs.Flow.{size};
ghost use Rattle.mm_flow.specs.Statements.{asserted, assumed, condition, set_ret, updated};
ghost use Rattle.mm_flow.specs.reading.Assembling.{count, doing, done, read, the_scope, valued, with_flow, within};

use crate::numbers::assert_number;
use mm_flow::assembler::{Assembler, Piece};
use mm_flow::context::Context;
use mm_flow::expressions::expr;
use mm_flow::lefts::{local_left, set_by, store_by};
use mm_flow::words::constant;
use mm_goto::{At, Binary, Ident, Instr, NoMemory, Pure};
use mm_tree::{Expr, Left};
use sqlite_items::Boxed;
use std::alloc::Global;

/// The code of an expression in a statement.
#[tactic(auto, using(mm_flow::proofs::Grows::emit_size))]
pub fn read(
    alloc: Global,
    context: &Context<'_>,
    code: &mut Assembler,
    e: &Expr,
) -> Result<Boxed<Pure>, NoMemory>
    ensures pure { IfOk result (λ p. p ≡ (read context.now code.old e.now).pure) }
    ensures code { OnOk result (code.new ≡ valued context.now (read context.now code.old e.now) code.old) }
    ensures count { OnOk result (count code.new ≡ count code.old + size (read context.now code.old e.now).flow) }
{
    expr(alloc, context, code, e)
}

/// The condition of a `for`.
#[tactic(auto, using(mm_flow::proofs::Grows::emit_size))]
pub fn condition(
    alloc: Global,
    context: &Context<'_>,
    code: &mut Assembler,
    c: &Option<Boxed<Expr>>,
) -> Result<Boxed<Pure>, NoMemory>
    ensures pure { IfOk result (λ p. p ≡ (condition (the_scope context.now code.old) c.now code.old.known.next).pure) }
    ensures code { OnOk result (code.new ≡ valued context.now (condition (the_scope context.now code.old) c.now code.old.known.next) code.old) }
    ensures count { OnOk result (count code.new ≡ count code.old + size (condition (the_scope context.now code.old) c.now code.old.known.next).flow) }
{
    match c {
        Some(c) => read(alloc, context, code, c.get()),
        None => constant(alloc, 1),
    }
}

/// Sets the local for what the function returns, where there is one.
#[tactic(auto, using(mm_flow::proofs::Grows::emit_size))]
pub fn set_ret(
    context: &Context<'_>,
    code: &mut Assembler,
    at: At,
    e: Boxed<Pure>,
) -> Result<(), NoMemory>
    ensures code { OnOk result (code.new ≡ with_flow context.now (set_ret at context.now.ret e) code.old) }
    ensures count { OnOk result (count code.new ≡ count code.old + size (set_ret at context.now.ret e)) }
{
    match context.ret {
        Some(l) => code.put(Piece::Do(at, Instr::Set(l, e.into_inner()))),
        None => Ok(()),
    }
}

/// The code of `left op= e`.
pub fn update(
    alloc: Global,
    context: &Context<'_>,
    code: &mut Assembler,
    left: &Left,
    op: Binary,
    e: &Expr,
) -> Result<(), NoMemory>
    ensures code { OnOk result (code.new ≡ valued context.now (updated (within context.now) code.old.known.names code.old.known.next left.now op e.now) code.old) }
{
    match local_left(code, &left.node) {
        Some(l) => set_by(alloc, context, code, left.at, l, op, e),
        None => store_by(alloc, context, code, left, op, e),
    }
}

/// The code of an assertion.
pub fn assertion(
    alloc: Global,
    context: &Context<'_>,
    code: &mut Assembler,
    at: At,
    e: &Expr,
    text: &Option<Ident>,
) -> Result<(), NoMemory>
    ensures code { OnOk result (code.new ≡ done context.now (doing context.now (λ w k. asserted w at e.now text.now k) code.old) code.old) }
{
    let e = expr(alloc, context, code, e)?;
    let n = assert_number(context.parts.side(), code.seen().asserts, text)?;
    code.put(Piece::Do(at, Instr::Assert(e.into_inner(), n)))?;
    code.pass_assertion()
}

/// The code of an assumption.
pub fn assumption(
    alloc: Global,
    context: &Context<'_>,
    code: &mut Assembler,
    at: At,
    e: &Expr,
) -> Result<(), NoMemory>
    ensures code { OnOk result (code.new ≡ done context.now (doing context.now (λ w k. assumed w at e.now k) code.old) code.old) }
{
    let e = expr(alloc, context, code, e)?;
    code.put(Piece::Do(at, Instr::Assume(e.into_inner())))
}
