//! The code of left sides, of locked instructions, and of what writes.
ghost use Rattle.std.specs.Prelude.{◌≡◌, ◌+◌, IfOk, OnOk};
ghost use Rattle.mm_goto.specs.declared.program.Instr.TheVariants as instr;
ghost use Rattle.mm_goto.specs.declared.program.Target.TheVariants as target;
ghost use Rattle.mm_flow.specs.declared.assembler.Piece.TheVariants as piece;
ghost use Rattle.mm_flow.specs.Expressions.{expr_value, followed, indexed, the_spot};
ghost use Rattle.mm_flow.specs.Scopes.{spot_of};
ghost use Rattle.mm_flow.specs.Statements.{added, aim_at, left_aim, local_left, set_by, stored_by, swapped};
ghost use Rattle.mm_flow.specs.reading.Assembling.{aimed, count, read, the_scope, valued, with_locals, with_piece};

use crate::assembler::{Assembler, Piece};
use crate::checks::{check_division, check_index, check_value, set};
use crate::context::Context;
use crate::expressions::expr;
use crate::words::{combined, copy_target, the_local};
use mm_goto::{At, Binary, Ident, Instr, NoMemory, Pure, Target};
use mm_tree::{Expr, Left, LeftNode, Node};
use sqlite_items::Boxed;
use std::alloc::Global;

/// The cell of a global.
fn aim_cell(alloc: Global, context: &Context<'_>, x: &Ident) -> Result<Boxed<Target>, NoMemory>
    ensures { IfOk result (λ t. t ≡ target.Cell (the_spot (spot_of context.now.parts.spots x.now)).first) }
{
    let cells = context.parts.cells(x);
    Ok(Boxed::new(alloc, Target::Cell(cells.first))?)
}

/// An element, whose index is checked.
fn aim_element(
    alloc: Global,
    context: &Context<'_>,
    code: &mut Assembler,
    at: At,
    x: &Ident,
    i: &Expr,
) -> Result<Boxed<Target>, NoMemory>
    ensures target { IfOk result (λ t. t ≡ (indexed at (the_spot (spot_of context.now.parts.spots x.now)) (read context.now code.old i.now)).target) }
    ensures code { OnOk result (code.new ≡ aimed context.now (indexed at (the_spot (spot_of context.now.parts.spots x.now)) (read context.now code.old i.now)) code.old) }
{
    let cells = context.parts.cells(x);
    let index = expr(alloc, context, code, i)?;
    check_index(alloc, code, at, cells.len, index.get())?;
    let index = index.into_inner();
    let target = Target::Elem {
        first: cells.first,
        len: cells.len,
        index,
    };
    Ok(Boxed::new(alloc, target)?)
}

/// What a pointer leads to, which is checked.
fn aim_behind(
    alloc: Global,
    context: &Context<'_>,
    code: &mut Assembler,
    at: At,
    p: &Expr,
) -> Result<Boxed<Target>, NoMemory>
    ensures target { IfOk result (λ t. t ≡ (followed at (read context.now code.old p.now)).target) }
    ensures code { OnOk result (code.new ≡ aimed context.now (followed at (read context.now code.old p.now)) code.old) }
{
    let pointer = expr(alloc, context, code, p)?;
    check_value(alloc, code, at, pointer.get())?;
    let pointer = pointer.into_inner();
    Ok(Boxed::new(alloc, Target::Deref(pointer))?)
}

/// What a locked instruction accesses.
fn aim_at(
    alloc: Global,
    context: &Context<'_>,
    code: &mut Assembler,
    at: At,
    p: &Expr,
) -> Result<Boxed<Target>, NoMemory>
    ensures target { IfOk result (λ t. t ≡ (aim_at (the_scope context.now code.old) at p.now code.old.known.next).target) }
    ensures code { OnOk result (code.new ≡ aimed context.now (aim_at (the_scope context.now code.old) at p.now code.old.known.next) code.old) }
{
    match &p.node {
        Node::AddrName(x) => aim_cell(alloc, context, &x.name),
        Node::AddrIndex(x, i) => aim_element(alloc, context, code, at, &x.name, i.get()),
        Node::Number(_)
        | Node::Null
        | Node::Name(_)
        | Node::Index(_, _)
        | Node::Deref(_)
        | Node::Un(_, _)
        | Node::Bin(_, _, _)
        | Node::Cond(_, _, _) => aim_behind(alloc, context, code, at, p),
    }
}

/// `__sync_fetch_and_add`.
pub fn fetch_add(
    alloc: Global,
    context: &Context<'_>,
    code: &mut Assembler,
    at: At,
    p: &Expr,
    e: &Expr,
) -> Result<Boxed<Pure>, NoMemory>
    ensures pure { IfOk result (λ r. r ≡ (added at (aim_at (the_scope context.now code.old) at p.now code.old.known.next) (expr_value e.now (the_scope context.now code.old))).pure) }
    ensures code { OnOk result (code.new ≡ valued context.now (added at (aim_at (the_scope context.now code.old) at p.now code.old.known.next) (expr_value e.now (the_scope context.now code.old))) code.old) }
{
    let target = aim_at(alloc, context, code, at, p)?;
    let e = expr(alloc, context, code, e)?;
    let t = code.fresh()?;
    code.put(Piece::Do(at, Instr::Add(t, target.into_inner(), e.into_inner())))?;
    the_local(alloc, t)
}

/// `__sync_bool_compare_and_swap`.
pub fn compare_swap(
    alloc: Global,
    context: &Context<'_>,
    code: &mut Assembler,
    at: At,
    p: &Expr,
    e: &Expr,
    f: &Expr,
) -> Result<Boxed<Pure>, NoMemory>
    ensures pure { IfOk result (λ r. r ≡ (swapped at (aim_at (the_scope context.now code.old) at p.now code.old.known.next) (expr_value e.now (the_scope context.now code.old)) (expr_value f.now (the_scope context.now code.old))).pure) }
    ensures code { OnOk result (code.new ≡ valued context.now (swapped at (aim_at (the_scope context.now code.old) at p.now code.old.known.next) (expr_value e.now (the_scope context.now code.old)) (expr_value f.now (the_scope context.now code.old))) code.old) }
{
    let target = aim_at(alloc, context, code, at, p)?;
    let e = expr(alloc, context, code, e)?;
    let f = expr(alloc, context, code, f)?;
    let t = code.fresh()?;
    let instr = Instr::Cas(t, target.into_inner(), e.into_inner(), f.into_inner());
    code.put(Piece::Do(at, instr))?;
    the_local(alloc, t)
}

/// The local that a left side names.
pub fn local_left(code: &Assembler, left: &LeftNode) -> Option<u32>
    ensures { result ≡ local_left code.now.known.names left.now }
{
    match left {
        LeftNode::Name(x) => code.local(x),
        LeftNode::Index(_, _) | LeftNode::Deref(_) => None,
    }
}

/// What a left side that names no local accesses.
pub fn left_aim(
    alloc: Global,
    context: &Context<'_>,
    code: &mut Assembler,
    at: At,
    left: &LeftNode,
) -> Result<Boxed<Target>, NoMemory>
    ensures target { IfOk result (λ t. t ≡ (left_aim (the_scope context.now code.old) at left.now code.old.known.next).target) }
    ensures code { OnOk result (code.new ≡ aimed context.now (left_aim (the_scope context.now code.old) at left.now code.old.known.next) code.old) }
{
    match left {
        LeftNode::Name(x) => aim_cell(alloc, context, x),
        LeftNode::Index(x, i) => aim_element(alloc, context, code, at, x, i.get()),
        LeftNode::Deref(p) => aim_behind(alloc, context, code, at, p.get()),
    }
}

/// Writes a target.
pub fn store(
    code: &mut Assembler,
    at: At,
    target: Boxed<Target>,
    e: Boxed<Pure>,
) -> Result<(), NoMemory>
    ensures code { OnOk result (code.new ≡ with_piece (piece.Do at (instr.Store target e)) code.old) }
    ensures count { OnOk result (count code.new ≡ count code.old + 1) }
{
    code.put(Piece::Do(at, Instr::Store(target.into_inner(), e.into_inner())))
}

/// `l op= e` for a local.
pub fn set_by(
    alloc: Global,
    context: &Context<'_>,
    code: &mut Assembler,
    at: At,
    l: u32,
    op: Binary,
    e: &Expr,
) -> Result<(), NoMemory>
    ensures code { OnOk result (code.new ≡ valued context.now (set_by at l op (read context.now code.old e.now)) code.old) }
{
    let e = expr(alloc, context, code, e)?;
    check_division(alloc, context, code, op, at, e.get())?;
    let old = the_local(alloc, l)?;
    let e = combined(alloc, op, old, e)?;
    set(code, at, l, e)
}

/// Reads a target into a fresh local, and gives the local.
fn load(alloc: Global, code: &mut Assembler, at: At, target: &Target) -> Result<u32, NoMemory>
    ensures local { IfOk result (λ t. t ≡ code.old.known.next) }
    ensures code { OnOk result (code.new ≡ with_piece (piece.Do at (instr.Load code.old.known.next target.now)) (with_locals 1 code.old)) }
{
    let target = copy_target(alloc, target)?;
    let t = code.fresh()?;
    code.put(Piece::Do(at, Instr::Load(t, target.into_inner())))?;
    Ok(t)
}

/// `left op= e` for a left side that names no local.
pub fn store_by(
    alloc: Global,
    context: &Context<'_>,
    code: &mut Assembler,
    left: &Left,
    op: Binary,
    e: &Expr,
) -> Result<(), NoMemory>
    ensures code { OnOk result (code.new ≡ valued context.now (stored_by left.now.at (left_aim (the_scope context.now code.old) left.now.at left.now.node code.old.known.next) op (expr_value e.now (the_scope context.now code.old))) code.old) }
{
    let target = left_aim(alloc, context, code, left.at, &left.node)?;
    let t = load(alloc, code, left.at, target.get())?;
    let e = expr(alloc, context, code, e)?;
    check_division(alloc, context, code, op, left.at, e.get())?;
    let old = the_local(alloc, t)?;
    let e = combined(alloc, op, old, e)?;
    store(code, left.at, target, e)
}
