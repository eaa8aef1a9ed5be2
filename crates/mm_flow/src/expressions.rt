//! The code of expressions.
ghost use Rattle.std.specs.Prelude.{◌≡◌, ◌+◌, IfOk, OnOk};
ghost use Rattle.mm_flow.specs.Expressions.{joining, name_value, reading, values};
ghost use Rattle.mm_flow.specs.Scopes.{local_of};
ghost use Rattle.mm_flow.specs.reading.Assembling.{read, the_scope, valued, with_values};

use crate::assembler::Assembler;
use crate::checks::{
    begin_choice, begin_short, between, check_division, element_at, end_short, is_division,
    load_behind, load_cell, load_element, set,
};
use crate::context::Context;
use crate::names::Joining;
use crate::words::{address, applied, chosen, combined, constant, the_local};
use mm_goto::{At, Binary, Ident, NoMemory, Pure, Unary};
use mm_tree::{Expr, Node};
use sqlite_items::Boxed;
use std::alloc::Global;

fn joining_of(op: Binary, has_code: bool) -> Joining
    ensures { result ≡ joining op has_code }
{
    match op {
        Binary::Land => {
            if has_code {
                Joining::And
            } else {
                Joining::Both
            }
        }
        Binary::Lor => { if has_code { Joining::Or } else { Joining::Both } }
        Binary::Add
        | Binary::Sub
        | Binary::Mul
        | Binary::Div
        | Binary::Rem
        | Binary::Shl
        | Binary::Shr
        | Binary::Lt
        | Binary::Le
        | Binary::Gt
        | Binary::Ge
        | Binary::Eq
        | Binary::Ne
        | Binary::And
        | Binary::Xor
        | Binary::Or => Joining::Both,
    }
}

/// Whether an expression has code.
#[tactic(auto, unfolding(crate::specs::Expressions::reading))]
pub fn has_code(context: &Context<'_>, code: &Assembler, e: &Expr) -> bool
    ensures { result ≡ (reading e.now).has_code (the_scope context.now code.now) }
{
    match &e.node {
        Node::Number(_) | Node::Null | Node::AddrName(_) => false,
        Node::Name(x) => code.local(x).is_none(),
        Node::Index(_, _) | Node::Deref(_) | Node::AddrIndex(_, _) => true,
        Node::Un(_, a) => has_code(context, code, a.get()),
        Node::Bin(op, a, b) => {
            has_code(context, code, a.get())
                || (has_code(context, code, b.get()) || is_division(*op))
        }
        Node::Cond(c, a, b) => {
            has_code(context, code, c.get())
                || (has_code(context, code, a.get()) || has_code(context, code, b.get()))
        }
    }
}

/// The value of a name.
fn name(
    alloc: Global,
    context: &Context<'_>,
    code: &mut Assembler,
    at: At,
    x: &Ident,
) -> Result<Boxed<Pure>, NoMemory>
    ensures pure { IfOk result (λ p. p ≡ (name_value at (the_scope context.now code.old) x.now (local_of code.old.known.names x.now) code.old.known.next).pure) }
    ensures code { OnOk result (code.new ≡ valued context.now (name_value at (the_scope context.now code.old) x.now (local_of code.old.known.names x.now) code.old.known.next) code.old) }
{
    match code.local(x) {
        Some(l) => the_local(alloc, l),
        None => load_cell(alloc, code, at, context.parts.cells(x).first),
    }
}

/// The code of an expression, and its value then.
#[tactic(auto, unfolding(crate::specs::Expressions::reading))]
pub fn expr(
    alloc: Global,
    context: &Context<'_>,
    code: &mut Assembler,
    e: &Expr,
) -> Result<Boxed<Pure>, NoMemory>
    ensures pure { IfOk result (λ p. p ≡ (read context.now code.old e.now).pure) }
    ensures code { OnOk result (code.new ≡ valued context.now (read context.now code.old e.now) code.old) }
{
    match &e.node {
        Node::Number(z) => constant(alloc, *z),
        Node::Null => constant(alloc, 0),
        Node::Name(x) => name(alloc, context, code, e.at, x),
        Node::Index(x, i) => {
            let cells = context.parts.cells(x);
            let i = expr(alloc, context, code, i.get())?;
            load_element(alloc, code, e.at, cells.first, cells.len, i)
        }
        Node::Deref(p) => {
            let p = expr(alloc, context, code, p.get())?;
            load_behind(alloc, code, e.at, p)
        }
        Node::AddrName(x) => address(alloc, context.parts.cells(&x.name).first),
        Node::AddrIndex(x, i) => {
            let cells = context.parts.cells(&x.name);
            let i = expr(alloc, context, code, i.get())?;
            element_at(alloc, code, e.at, cells.first, cells.len, i)
        }
        Node::Un(op, a) => {
            let a = expr(alloc, context, code, a.get())?;
            applied(alloc, *op, a)
        }
        Node::Bin(op, a, b) => match joining_of(*op, has_code(context, code, b.get())) {
            Joining::Both => {
                let a = expr(alloc, context, code, a.get())?;
                let b = expr(alloc, context, code, b.get())?;
                check_division(alloc, context, code, *op, e.at, b.get())?;
                combined(alloc, *op, a, b)
            }
            Joining::And => {
                let a = expr(alloc, context, code, a.get())?;
                let t = code.fresh()?;
                let end = begin_short(alloc, code, e.at, t, 0, a)?;
                let b = expr(alloc, context, code, b.get())?;
                end_short(alloc, code, e.at, t, end, b)
            }
            Joining::Or => {
                let a = expr(alloc, context, code, a.get())?;
                let t = code.fresh()?;
                let test = applied(alloc, Unary::Not, a)?;
                let end = begin_short(alloc, code, e.at, t, 1, test)?;
                let b = expr(alloc, context, code, b.get())?;
                end_short(alloc, code, e.at, t, end, b)
            }
        },
        Node::Cond(c, a, b) => {
            if has_code(context, code, a.get()) || has_code(context, code, b.get()) {
                let c = expr(alloc, context, code, c.get())?;
                let t = code.fresh()?;
                let (other, end) = begin_choice(code, e.at, c)?;
                let a = expr(alloc, context, code, a.get())?;
                set(code, e.at, t, a)?;
                between(code, e.at, other, end)?;
                let b = expr(alloc, context, code, b.get())?;
                set(code, e.at, t, b)?;
                code.mark(end)?;
                the_local(alloc, t)
            } else {
                let c = expr(alloc, context, code, c.get())?;
                let a = expr(alloc, context, code, a.get())?;
                let b = expr(alloc, context, code, b.get())?;
                chosen(alloc, c, a, b)
            }
        }
    }
}

/// The code of expressions in order, and their values.
pub fn exprs(
    alloc: Global,
    context: &Context<'_>,
    code: &mut Assembler,
    es: &[Expr],
) -> Result<Vec<Pure>, NoMemory>
    ensures pures { IfOk result (λ pures. pures.items ≡ (values (the_scope context.now code.old) es.now code.old.known.next).pures) }
    ensures code { OnOk result (code.new ≡ with_values context.now (values (the_scope context.now code.old) es.now code.old.known.next) code.old) }
{
    let mut pures = Vec::new(alloc);
    for e in es {
        let e = expr(alloc, context, code, e)?;
        pures.push(e.into_inner())?;
    }
    Ok(pures)
}
