ghost use Rattle.std.specs.Prelude.{◌≡◌, ◌++◌, OnOk, string_bytes};
ghost use Rattle.mm_print.specs.Pieces.{text, subscript};
ghost use Rattle.mm_print.specs.Expressions.{written, operand, address, expr_pieces};

use crate::words::{operator_text, unary_text};
use mm_goto::NoMemory;
use mm_goto::text::{put, put_int};
use mm_tree::{Expr, Node};
use std::alloc::Global;

#[tactic(auto, unfolding(crate::specs::Expressions::written))]
fn is_compound(e: &Expr) -> bool
    ensures { result ≡ (written e.now).compound }
{
    !matches!(
        &e.node,
        Node::Number(_) | Node::Null | Node::Name(_) | Node::Index(_, _)
    )
}

fn put_address(out: &mut String, name: &str) -> Result<(), NoMemory>
    ensures { OnOk result (string_bytes out.new ≡ string_bytes out.old ++ text (address name.now)) }
{
    put(out, "&")?;
    put(out, name)
}

/// Writes an expression as an operand.
#[cycle(expression)]
#[tactic(auto, using(crate::proofs::Texts::text_append))]
pub fn put_operand(alloc: Global, out: &mut String, e: &Expr) -> Result<(), NoMemory>
    ensures { OnOk result (string_bytes out.new ≡ string_bytes out.old ++ text (operand (written e.now))) }
{
    if is_compound(e) {
        put(out, "(")?;
        put_expr(alloc, out, e)?;
        put(out, ")")
    } else {
        put_expr(alloc, out, e)
    }
}

/// Writes an index in its brackets.
#[cycle(expression)]
#[tactic(auto, using(crate::proofs::Texts::text_append))]
pub fn put_subscript(alloc: Global, out: &mut String, index: &Expr) -> Result<(), NoMemory>
    ensures { OnOk result (string_bytes out.new ≡ string_bytes out.old ++ text (subscript (expr_pieces index.now))) }
{
    put(out, "[")?;
    put_expr(alloc, out, index)?;
    put(out, "]")
}

/// Writes an expression by itself.
#[cycle(expression)]
#[tactic(auto, unfolding(crate::specs::Expressions::written), using(crate::proofs::Texts::text_append))]
pub fn put_expr(alloc: Global, out: &mut String, e: &Expr) -> Result<(), NoMemory>
    ensures { OnOk result (string_bytes out.new ≡ string_bytes out.old ++ text (expr_pieces e.now)) }
{
    match &e.node {
        Node::Number(n) => put_int(alloc, out, *n),
        Node::Null => put(out, "NULL"),
        Node::Name(x) => put(out, x.text()),
        Node::Index(x, index) => {
            put(out, x.text())?;
            put_subscript(alloc, out, index.get())
        }
        Node::Deref(pointer) => {
            put(out, "*")?;
            put_operand(alloc, out, pointer.get())
        }
        Node::AddrName(x) => put_address(out, x.name.text()),
        Node::AddrIndex(x, index) => {
            put_address(out, x.name.text())?;
            put_subscript(alloc, out, index.get())
        }
        Node::Un(op, a) => {
            put(out, unary_text(*op))?;
            put_operand(alloc, out, a.get())
        }
        Node::Bin(op, a, b) => {
            put_operand(alloc, out, a.get())?;
            put(out, " ")?;
            put(out, operator_text(*op))?;
            put(out, " ")?;
            put_operand(alloc, out, b.get())
        }
        Node::Cond(c, a, b) => {
            put_operand(alloc, out, c.get())?;
            put(out, " ? ")?;
            put_operand(alloc, out, a.get())?;
            put(out, " : ")?;
            put_operand(alloc, out, b.get())
        }
    }
}
