//! The code of statements. Each function takes one from the room that it is given, and where there is none it answers
//! `NoMemory`: so the depth of the calls is bounded, however deep statements and calls nest.
ghost use Rattle.std.specs.Prelude.{◌≡◌, ◌+◌, ◌<◌, length, take, map, option_map, Some, None, IfOk, IfErr, OnOk};
ghost use Rattle.mm_flow.specs.Flow.{size};
ghost use Rattle.mm_flow.specs.Statements.{assigned, assigned_to, body_code, call_value, called, choice_code, declared, declared_one, do_code, first_value, for_code, if_code, if_or_choice, in_order, inner, is_input, labelled, optional, returned, stmt_code, turns, while_code};
ghost use Rattle.mm_flow.specs.reading.Assembling.{count, doing, done, valued, within, WhenFull};
ghost use Rattle.mm_flat_stmt.specs.reading.Bodies.{inlined, inlined_with, value_at};

use crate::calls::{Function, begin, bind, function_of, input, is_input};
use crate::simple::{mark, simple};
use crate::updates::{condition, read, set_ret};
use mm_flow::assembler::{Assembler, Exits, Piece};
use mm_flow::checks::{begin_choice, between, branch, set};
use mm_flow::context::Context;
use mm_flow::fault::Stop;
use mm_flow::lefts::{compare_swap, fetch_add, left_aim, local_left, store};
use mm_flow::locals::Locals;
use mm_flow::mentions::labels_in;
use mm_flow::tables::Labels;
use mm_flow::words::{constant, the_local};
use mm_goto::{At, Ident, Pure};
use mm_tree::{Expr, Left, Local, Stmt, StmtNode, Value};
use sqlite_items::Boxed;
use std::alloc::Global;

/// The code of a value.
#[cycle(flatten)]
#[tactic(auto, using(mm_flow::proofs::Grows::emit_size))]
fn value(
    alloc: Global,
    context: &Context<'_>,
    code: &mut Assembler,
    room: u32,
    v: &Value,
) -> Result<Boxed<Pure>, Stop>
    ensures pure { IfOk result (λ p. p ≡ (value_at context.now code.old v.now).pure) }
    ensures code { OnOk result (code.new ≡ valued context.now (value_at context.now code.old v.now) code.old) }
    ensures count { OnOk result (count code.new ≡ count code.old + size (value_at context.now code.old v.now).flow) }
    ensures full { IfErr result (λ e. WhenFull e (context.now.limit < count code.old + size (value_at context.now code.old v.now).flow)) }
{
    let Some(room) = room.checked_sub(1) else {
        return Err(Stop::NoMemory);
    };
    match v {
        Value::Plain(e) => Ok(read(alloc, context, code, e.get())?),
        Value::Call(at, f, es) => call_value(alloc, context, code, room, *at, f, es.items()),
        Value::FetchAdd(at, p, e) => Ok(fetch_add(alloc, context, code, *at, p.get(), e.get())?),
        Value::CompareSwap(at, p, e, f) => Ok(compare_swap(
            alloc,
            context,
            code,
            *at,
            p.get(),
            e.get(),
            f.get(),
        )?),
    }
}

/// The code of a call, of a function of the text or of one that gives any int.
#[cycle(flatten)]
#[tactic(auto, using(mm_flow::proofs::Grows::emit_size))]
fn call_value(
    alloc: Global,
    context: &Context<'_>,
    code: &mut Assembler,
    room: u32,
    at: At,
    f: &Ident,
    es: &[Expr],
) -> Result<Boxed<Pure>, Stop>
    ensures pure { IfOk result (λ p. p ≡ (call_value (within context.now) at f.now es.now code.old.known.names code.old.known.next (is_input f.now)).pure) }
    ensures code { OnOk result (code.new ≡ valued context.now (call_value (within context.now) at f.now es.now code.old.known.names code.old.known.next (is_input f.now)) code.old) }
    ensures count { OnOk result (count code.new ≡ count code.old + size (call_value (within context.now) at f.now es.now code.old.known.names code.old.known.next (is_input f.now)).flow) }
    ensures full { IfErr result (λ e. WhenFull e (context.now.limit < count code.old + size (call_value (within context.now) at f.now es.now code.old.known.names code.old.known.next (is_input f.now)).flow)) }
{
    let Some(room) = room.checked_sub(1) else {
        return Err(Stop::NoMemory);
    };
    if is_input(f) {
        return Ok(input(alloc, context, code, at)?);
    }
    match function_of(context.items, context.parts.asserts(), f) {
        Some(function) => call(alloc, context, code, room, at, &function, es),
        None => Ok(constant(alloc, 0)?),
    }
}

/// The code of a call of a function of the text.
#[cycle(flatten)]
fn call(
    alloc: Global,
    context: &Context<'_>,
    code: &mut Assembler,
    room: u32,
    at: At,
    function: &Function<'_>,
    es: &[Expr],
) -> Result<Boxed<Pure>, Stop>
    ensures pure { IfOk result (λ p. p ≡ (called (within context.now) at es.now code.old.known.names code.old.known.next function.now).pure) }
    ensures code { OnOk result (code.new ≡ valued context.now (called (within context.now) at es.now code.old.known.names code.old.known.next function.now) code.old) }
    ensures count { OnOk result (count code.new ≡ count code.old + size (called (within context.now) at es.now code.old.known.names code.old.known.next function.now).flow) }
    ensures full { IfErr result (λ e. WhenFull e (context.now.limit < count code.old + size (called (within context.now) at es.now code.old.known.names code.old.known.next function.now).flow)) }
{
    let Some(room) = room.checked_sub(1) else {
        return Err(Stop::NoMemory);
    };
    let bound = bind(alloc, function.params, code.next())?;
    let ret = begin(alloc, context, code, at, function, es)?;
    inline(alloc, context, code, room, function, bound, ret)?;
    Ok(the_local(alloc, ret)?)
}

/// The code of a called function's body.
#[cycle(flatten)]
fn inline(
    alloc: Global,
    context: &Context<'_>,
    code: &mut Assembler,
    room: u32,
    function: &Function<'_>,
    mut bound: Locals,
    ret: u32,
) -> Result<(), Stop>
    ensures code { OnOk result (code.new ≡ valued context.now (inlined context.now function.now bound ret code.old) code.old) }
    ensures count { OnOk result (count code.new ≡ count code.old + size (inlined context.now function.now bound ret code.old).flow) }
    ensures full { IfErr result (λ e. WhenFull e (context.now.limit < count code.old + size (inlined context.now function.now bound ret code.old).flow)) }
{
    let Some(room) = room.checked_sub(1) else {
        return Err(Stop::NoMemory);
    };
    let own = labels_in(alloc, function.body)?;
    let labels = Labels::new(alloc, &own)?;
    inline_with(
        alloc, context, code, room, function, &labels, &mut bound, ret,
    )
}

/// The code of a called function's body, with its labels.
#[cycle(flatten)]
#[tactic(auto, using(crate::proofs::Inlining::inline_at_is, mm_flow::proofs::Grows::reserved_pieces))]
fn inline_with(
    alloc: Global,
    context: &Context<'_>,
    code: &mut Assembler,
    room: u32,
    function: &Function<'_>,
    labels: &Labels<'_>,
    bound: &mut Locals,
    ret: u32,
) -> Result<(), Stop>
    ensures code { OnOk result (code.new ≡ valued context.now (inlined_with context.now function.now labels.now bound.old ret code.old) code.old) }
    ensures count { OnOk result (count code.new ≡ count code.old + size (inlined_with context.now function.now labels.now bound.old ret code.old).flow) }
    ensures full { IfErr result (λ e. WhenFull e (context.now.limit < count code.old + size (inlined_with context.now function.now labels.now bound.old ret code.old).flow)) }
{
    let Some(room) = room.checked_sub(1) else {
        return Err(Stop::NoMemory);
    };
    let Some(calls) = context.calls.checked_sub(1) else {
        return Err(Stop::NoMemory);
    };
    let home = code.label()?;
    let Some(base) = home.checked_add(1) else {
        return Err(Stop::NoMemory);
    };
    code.reserve(labels.names())?;
    let body = Context {
        parts: context.parts,
        items: context.items,
        labels: &*labels,
        exits: Exits {
            behind: context.exits.behind,
            next: context.exits.next,
            home,
            base,
        },
        ret: Some(ret),
        calls,
        limit: context.limit,
    };
    let seen = code.seen();
    code.enter(bound, function.asserts);
    match stmts(alloc, &body, code, room, function.body) {
        Ok(()) => {}
        Err(stop) => return Err(stop),
    }
    code.mark(home)?;
    code.resume(bound, seen);
    Ok(())
}

/// The code of statements in order.
#[cycle(flatten)]
pub fn stmts(
    alloc: Global,
    context: &Context<'_>,
    code: &mut Assembler,
    room: u32,
    ss: &[Stmt],
) -> Result<(), Stop>
    ensures code { OnOk result (code.new ≡ done context.now (doing context.now (body_code ss.now) code.old) code.old) }
    ensures count { OnOk result (count code.new ≡ count code.old + size (doing context.now (body_code ss.now) code.old).flow) }
    ensures full { IfErr result (λ e. WhenFull e (context.now.limit < count code.old + size (doing context.now (body_code ss.now) code.old).flow)) }
    ensures kept { OnOk result (take (length code.old.known.names) code.new.known.names ≡ code.old.known.names) }
{
    let Some(room) = room.checked_sub(1) else {
        return Err(Stop::NoMemory);
    };
    for s in ss {
        stmt(alloc, context, code, room, s)?;
        if context.limit < code.len() {
            return Err(Stop::Full);
        }
    }
    Ok(())
}

/// The code of a statement whose names end with it.
#[cycle(flatten)]
fn inner(
    alloc: Global,
    context: &Context<'_>,
    code: &mut Assembler,
    room: u32,
    s: &Stmt,
) -> Result<(), Stop>
    ensures code { OnOk result (code.new ≡ done context.now (doing context.now (inner (stmt_code s.now)) code.old) code.old) }
    ensures count { OnOk result (count code.new ≡ count code.old + size (doing context.now (inner (stmt_code s.now)) code.old).flow) }
    ensures full { IfErr result (λ e. WhenFull e (context.now.limit < count code.old + size (doing context.now (inner (stmt_code s.now)) code.old).flow)) }
    ensures names { OnOk result (code.new.known.names ≡ code.old.known.names) }
{
    let Some(room) = room.checked_sub(1) else {
        return Err(Stop::NoMemory);
    };
    let depth = code.depth();
    stmt(alloc, context, code, room, s)?;
    code.leave(depth);
    Ok(())
}

/// The code of a block.
#[cycle(flatten)]
fn block(
    alloc: Global,
    context: &Context<'_>,
    code: &mut Assembler,
    room: u32,
    ss: &[Stmt],
) -> Result<(), Stop>
    ensures code { OnOk result (code.new ≡ done context.now (doing context.now (inner (body_code ss.now)) code.old) code.old) }
    ensures count { OnOk result (count code.new ≡ count code.old + size (doing context.now (inner (body_code ss.now)) code.old).flow) }
    ensures full { IfErr result (λ e. WhenFull e (context.now.limit < count code.old + size (doing context.now (inner (body_code ss.now)) code.old).flow)) }
    ensures names { OnOk result (code.new.known.names ≡ code.old.known.names) }
{
    let Some(room) = room.checked_sub(1) else {
        return Err(Stop::NoMemory);
    };
    let depth = code.depth();
    stmts(alloc, context, code, room, ss)?;
    code.leave(depth);
    Ok(())
}

/// The code of the value with which a local begins.
#[cycle(flatten)]
fn first_value(
    alloc: Global,
    context: &Context<'_>,
    code: &mut Assembler,
    room: u32,
    v: &Option<Boxed<Value>>,
) -> Result<Boxed<Pure>, Stop>
    ensures pure { IfOk result (λ p. p ≡ (first_value (within context.now) code.old.known.names code.old.known.next v.now).pure) }
    ensures code { OnOk result (code.new ≡ valued context.now (first_value (within context.now) code.old.known.names code.old.known.next v.now) code.old) }
    ensures count { OnOk result (count code.new ≡ count code.old + size (first_value (within context.now) code.old.known.names code.old.known.next v.now).flow) }
    ensures full { IfErr result (λ e. WhenFull e (context.now.limit < count code.old + size (first_value (within context.now) code.old.known.names code.old.known.next v.now).flow)) }
{
    let Some(room) = room.checked_sub(1) else {
        return Err(Stop::NoMemory);
    };
    match v {
        Some(v) => value(alloc, context, code, room, v.get()),
        None => Ok(constant(alloc, 0)?),
    }
}

/// The code of a declared name.
#[cycle(flatten)]
fn declare_one(
    alloc: Global,
    context: &Context<'_>,
    code: &mut Assembler,
    room: u32,
    l: &Local,
) -> Result<(), Stop>
    ensures code { OnOk result (code.new ≡ done context.now (declared_one (within context.now) code.old.known l.now) code.old) }
    ensures count { OnOk result (count code.new ≡ count code.old + size (declared_one (within context.now) code.old.known l.now).flow) }
    ensures full { IfErr result (λ e. WhenFull e (context.now.limit < count code.old + size (declared_one (within context.now) code.old.known l.now).flow)) }
    ensures kept { OnOk result (take (length code.old.known.names) code.new.known.names ≡ code.old.known.names) }
{
    let Some(room) = room.checked_sub(1) else {
        return Err(Stop::NoMemory);
    };
    let v = code.fresh()?;
    let e = first_value(alloc, context, code, room, &l.value)?;
    set(code, l.at, v, e)?;
    code.bind(alloc, &l.name, v)?;
    Ok(())
}

/// The code of a declaration.
#[cycle(flatten)]
fn declare(
    alloc: Global,
    context: &Context<'_>,
    code: &mut Assembler,
    room: u32,
    locals: &[Local],
) -> Result<(), Stop>
    ensures code { OnOk result (code.new ≡ done context.now (declared (within context.now) locals.now code.old.known) code.old) }
    ensures count { OnOk result (count code.new ≡ count code.old + size (declared (within context.now) locals.now code.old.known).flow) }
    ensures full { IfErr result (λ e. WhenFull e (context.now.limit < count code.old + size (declared (within context.now) locals.now code.old.known).flow)) }
    ensures kept { OnOk result (take (length code.old.known.names) code.new.known.names ≡ code.old.known.names) }
{
    let Some(room) = room.checked_sub(1) else {
        return Err(Stop::NoMemory);
    };
    for l in locals {
        declare_one(alloc, context, code, room, l)?;
    }
    Ok(())
}

/// The code of an assignment to a left side that names no local.
#[cycle(flatten)]
#[tactic(auto, using(mm_flow::proofs::Grows::emit_size))]
fn assign_target(
    alloc: Global,
    context: &Context<'_>,
    code: &mut Assembler,
    room: u32,
    left: &Left,
    v: &Value,
) -> Result<(), Stop>
    ensures code { OnOk result (code.new ≡ valued context.now (assigned_to (within context.now) code.old.known.names code.old.known.next left.now v.now None) code.old) }
    ensures count { OnOk result (count code.new ≡ count code.old + size (assigned_to (within context.now) code.old.known.names code.old.known.next left.now v.now None).flow) }
    ensures full { IfErr result (λ e. WhenFull e (context.now.limit < count code.old + size (assigned_to (within context.now) code.old.known.names code.old.known.next left.now v.now None).flow)) }
{
    let Some(room) = room.checked_sub(1) else {
        return Err(Stop::NoMemory);
    };
    let target = left_aim(alloc, context, code, left.at, &left.node)?;
    let e = match value(alloc, context, code, room, v) {
        Ok(e) => e,
        Err(stop) => return Err(stop),
    };
    store(code, left.at, target, e)?;
    Ok(())
}

/// The code of an assignment.
#[cycle(flatten)]
#[tactic(auto, unfolding(mm_flow::specs::Statements::assigned))]
fn assign(
    alloc: Global,
    context: &Context<'_>,
    code: &mut Assembler,
    room: u32,
    left: &Left,
    v: &Value,
) -> Result<(), Stop>
    ensures code { OnOk result (code.new ≡ valued context.now (assigned (within context.now) code.old.known.names code.old.known.next left.now v.now) code.old) }
    ensures count { OnOk result (count code.new ≡ count code.old + size (assigned (within context.now) code.old.known.names code.old.known.next left.now v.now).flow) }
    ensures full { IfErr result (λ e. WhenFull e (context.now.limit < count code.old + size (assigned (within context.now) code.old.known.names code.old.known.next left.now v.now).flow)) }
{
    let Some(room) = room.checked_sub(1) else {
        return Err(Stop::NoMemory);
    };
    match local_left(code, &left.node) {
        Some(l) => {
            let e = value(alloc, context, code, room, v)?;
            set(code, left.at, l, e)?;
            Ok(())
        }
        None => assign_target(alloc, context, code, room, left, v),
    }
}

/// The code of a `return`.
#[cycle(flatten)]
fn give_back(
    alloc: Global,
    context: &Context<'_>,
    code: &mut Assembler,
    room: u32,
    at: At,
    v: &Option<Boxed<Value>>,
) -> Result<(), Stop>
    ensures code { OnOk result (code.new ≡ valued context.now (returned (within context.now) at code.old.known.names code.old.known.next v.now) code.old) }
    ensures count { OnOk result (count code.new ≡ count code.old + size (returned (within context.now) at code.old.known.names code.old.known.next v.now).flow) }
    ensures full { IfErr result (λ e. WhenFull e (context.now.limit < count code.old + size (returned (within context.now) at code.old.known.names code.old.known.next v.now).flow)) }
{
    let Some(room) = room.checked_sub(1) else {
        return Err(Stop::NoMemory);
    };
    match v {
        None => Ok(code.put(Piece::Jump(at, context.exits.home))?),
        Some(v) => {
            let e = value(alloc, context, code, room, v.get())?;
            set_ret(context, code, at, e)?;
            code.put(Piece::Jump(at, context.exits.home))?;
            Ok(())
        }
    }
}

/// The code of a value that is let go.
#[cycle(flatten)]
fn do_value(
    alloc: Global,
    context: &Context<'_>,
    code: &mut Assembler,
    room: u32,
    v: &Value,
) -> Result<(), Stop>
    ensures code { OnOk result (code.new ≡ valued context.now (value_at context.now code.old v.now) code.old) }
    ensures count { OnOk result (count code.new ≡ count code.old + size (value_at context.now code.old v.now).flow) }
    ensures full { IfErr result (λ e. WhenFull e (context.now.limit < count code.old + size (value_at context.now code.old v.now).flow)) }
{
    let Some(room) = room.checked_sub(1) else {
        return Err(Stop::NoMemory);
    };
    value(alloc, context, code, room, v)?;
    Ok(())
}

/// The code of an `if` without `else`.
#[cycle(flatten)]
fn if_code(
    alloc: Global,
    context: &Context<'_>,
    code: &mut Assembler,
    room: u32,
    at: At,
    c: &Expr,
    a: &Stmt,
) -> Result<(), Stop>
    ensures code { OnOk result (code.new ≡ done context.now (doing context.now (if_code at c.now (stmt_code a.now)) code.old) code.old) }
    ensures count { OnOk result (count code.new ≡ count code.old + size (doing context.now (if_code at c.now (stmt_code a.now)) code.old).flow) }
    ensures full { IfErr result (λ e. WhenFull e (context.now.limit < count code.old + size (doing context.now (if_code at c.now (stmt_code a.now)) code.old).flow)) }
    ensures names { OnOk result (code.new.known.names ≡ code.old.known.names) }
{
    let Some(room) = room.checked_sub(1) else {
        return Err(Stop::NoMemory);
    };
    let test = read(alloc, context, code, c)?;
    let end = branch(code, at, test)?;
    match inner(alloc, context, code, room, a) {
        Ok(()) => {}
        Err(stop) => return Err(stop),
    }
    code.mark(end)?;
    Ok(())
}

/// The code of an `if` with `else`.
#[cycle(flatten)]
fn choice_code(
    alloc: Global,
    context: &Context<'_>,
    code: &mut Assembler,
    room: u32,
    at: At,
    c: &Expr,
    a: &Stmt,
    b: &Stmt,
) -> Result<(), Stop>
    ensures code { OnOk result (code.new ≡ done context.now (doing context.now (choice_code at c.now (stmt_code a.now) (stmt_code b.now)) code.old) code.old) }
    ensures count { OnOk result (count code.new ≡ count code.old + size (doing context.now (choice_code at c.now (stmt_code a.now) (stmt_code b.now)) code.old).flow) }
    ensures full { IfErr result (λ e. WhenFull e (context.now.limit < count code.old + size (doing context.now (choice_code at c.now (stmt_code a.now) (stmt_code b.now)) code.old).flow)) }
    ensures names { OnOk result (code.new.known.names ≡ code.old.known.names) }
{
    let Some(room) = room.checked_sub(1) else {
        return Err(Stop::NoMemory);
    };
    let test = read(alloc, context, code, c)?;
    let (other, end) = begin_choice(code, at, test)?;
    match inner(alloc, context, code, room, a) {
        Ok(()) => {}
        Err(stop) => return Err(stop),
    }
    between(code, at, other, end)?;
    match inner(alloc, context, code, room, b) {
        Ok(()) => {}
        Err(stop) => return Err(stop),
    }
    code.mark(end)?;
    Ok(())
}

/// The code of an `if`.
#[cycle(flatten)]
fn if_or_choice(
    alloc: Global,
    context: &Context<'_>,
    code: &mut Assembler,
    room: u32,
    at: At,
    c: &Expr,
    a: &Stmt,
    b: &Option<Boxed<Stmt>>,
) -> Result<(), Stop>
    ensures code { OnOk result (code.new ≡ done context.now (doing context.now (if_or_choice at c.now (stmt_code a.now) (option_map stmt_code b.now)) code.old) code.old) }
    ensures count { OnOk result (count code.new ≡ count code.old + size (doing context.now (if_or_choice at c.now (stmt_code a.now) (option_map stmt_code b.now)) code.old).flow) }
    ensures full { IfErr result (λ e. WhenFull e (context.now.limit < count code.old + size (doing context.now (if_or_choice at c.now (stmt_code a.now) (option_map stmt_code b.now)) code.old).flow)) }
    ensures names { OnOk result (code.new.known.names ≡ code.old.known.names) }
{
    let Some(room) = room.checked_sub(1) else {
        return Err(Stop::NoMemory);
    };
    match b {
        None => if_code(alloc, context, code, room, at, c, a),
        Some(b) => choice_code(alloc, context, code, room, at, c, a, b.get()),
    }
}

/// The code of a `while`.
#[cycle(flatten)]
#[tactic(auto, unfolding(mm_flow::specs::Statements::while_code))]
fn while_code(
    alloc: Global,
    context: &Context<'_>,
    code: &mut Assembler,
    room: u32,
    at: At,
    c: &Expr,
    a: &Stmt,
) -> Result<(), Stop>
    ensures code { OnOk result (code.new ≡ done context.now (doing context.now (while_code at c.now (stmt_code a.now)) code.old) code.old) }
    ensures count { OnOk result (count code.new ≡ count code.old + size (doing context.now (while_code at c.now (stmt_code a.now)) code.old).flow) }
    ensures full { IfErr result (λ e. WhenFull e (context.now.limit < count code.old + size (doing context.now (while_code at c.now (stmt_code a.now)) code.old).flow)) }
    ensures names { OnOk result (code.new.known.names ≡ code.old.known.names) }
{
    let Some(room) = room.checked_sub(1) else {
        return Err(Stop::NoMemory);
    };
    let top = code.label()?;
    let end = code.label()?;
    code.mark(top)?;
    let test = read(alloc, context, code, c)?;
    code.put(Piece::Branch(at, test.into_inner(), end))?;
    let inside = context.inside(end, top);
    match inner(alloc, &inside, code, room, a) {
        Ok(()) => {}
        Err(stop) => return Err(stop),
    }
    code.put(Piece::Jump(at, top))?;
    code.mark(end)?;
    Ok(())
}

/// The code of a `do`.
#[cycle(flatten)]
fn do_code(
    alloc: Global,
    context: &Context<'_>,
    code: &mut Assembler,
    room: u32,
    at: At,
    a: &Stmt,
    c: &Expr,
) -> Result<(), Stop>
    ensures code { OnOk result (code.new ≡ done context.now (doing context.now (do_code at (stmt_code a.now) c.now) code.old) code.old) }
    ensures count { OnOk result (count code.new ≡ count code.old + size (doing context.now (do_code at (stmt_code a.now) c.now) code.old).flow) }
    ensures full { IfErr result (λ e. WhenFull e (context.now.limit < count code.old + size (doing context.now (do_code at (stmt_code a.now) c.now) code.old).flow)) }
    ensures names { OnOk result (code.new.known.names ≡ code.old.known.names) }
{
    let Some(room) = room.checked_sub(1) else {
        return Err(Stop::NoMemory);
    };
    let top = code.label()?;
    let next = code.label()?;
    let end = code.label()?;
    code.mark(top)?;
    let inside = context.inside(end, next);
    match inner(alloc, &inside, code, room, a) {
        Ok(()) => {}
        Err(stop) => return Err(stop),
    }
    code.mark(next)?;
    let test = read(alloc, context, code, c)?;
    code.put(Piece::Branch(at, test.into_inner(), end))?;
    code.put(Piece::Jump(at, top))?;
    code.mark(end)?;
    Ok(())
}

/// The code of a statement that may be left out.
#[cycle(flatten)]
fn maybe(
    alloc: Global,
    context: &Context<'_>,
    code: &mut Assembler,
    room: u32,
    s: &Option<Boxed<Stmt>>,
) -> Result<(), Stop>
    ensures code { OnOk result (code.new ≡ done context.now (doing context.now (optional (option_map stmt_code s.now)) code.old) code.old) }
    ensures count { OnOk result (count code.new ≡ count code.old + size (doing context.now (optional (option_map stmt_code s.now)) code.old).flow) }
    ensures full { IfErr result (λ e. WhenFull e (context.now.limit < count code.old + size (doing context.now (optional (option_map stmt_code s.now)) code.old).flow)) }
    ensures kept { OnOk result (take (length code.old.known.names) code.new.known.names ≡ code.old.known.names) }
{
    let Some(room) = room.checked_sub(1) else {
        return Err(Stop::NoMemory);
    };
    match s {
        None => Ok(()),
        Some(s) => stmt(alloc, context, code, room, s.get()),
    }
}

/// The code of the step of a `for`.
#[cycle(flatten)]
fn step(
    alloc: Global,
    context: &Context<'_>,
    code: &mut Assembler,
    room: u32,
    s: &Option<Boxed<Stmt>>,
) -> Result<(), Stop>
    ensures code { OnOk result (code.new ≡ done context.now (doing context.now (inner (optional (option_map stmt_code s.now))) code.old) code.old) }
    ensures count { OnOk result (count code.new ≡ count code.old + size (doing context.now (inner (optional (option_map stmt_code s.now))) code.old).flow) }
    ensures full { IfErr result (λ e. WhenFull e (context.now.limit < count code.old + size (doing context.now (inner (optional (option_map stmt_code s.now))) code.old).flow)) }
    ensures names { OnOk result (code.new.known.names ≡ code.old.known.names) }
{
    let Some(room) = room.checked_sub(1) else {
        return Err(Stop::NoMemory);
    };
    let depth = code.depth();
    maybe(alloc, context, code, room, s)?;
    code.leave(depth);
    Ok(())
}

/// The code of the loop behind the first part of a `for`.
#[cycle(flatten)]
fn turns(
    alloc: Global,
    context: &Context<'_>,
    code: &mut Assembler,
    room: u32,
    at: At,
    c: &Option<Boxed<Expr>>,
    j: &Option<Boxed<Stmt>>,
    a: &Stmt,
) -> Result<(), Stop>
    ensures code { OnOk result (code.new ≡ done context.now (doing context.now (turns at c.now (option_map stmt_code j.now) (stmt_code a.now)) code.old) code.old) }
    ensures count { OnOk result (count code.new ≡ count code.old + size (doing context.now (turns at c.now (option_map stmt_code j.now) (stmt_code a.now)) code.old).flow) }
    ensures full { IfErr result (λ e. WhenFull e (context.now.limit < count code.old + size (doing context.now (turns at c.now (option_map stmt_code j.now) (stmt_code a.now)) code.old).flow)) }
    ensures names { OnOk result (code.new.known.names ≡ code.old.known.names) }
{
    let Some(room) = room.checked_sub(1) else {
        return Err(Stop::NoMemory);
    };
    let top = code.label()?;
    let next = code.label()?;
    let end = code.label()?;
    code.mark(top)?;
    let test = condition(alloc, context, code, c)?;
    code.put(Piece::Branch(at, test.into_inner(), end))?;
    let inside = context.inside(end, next);
    match inner(alloc, &inside, code, room, a) {
        Ok(()) => {}
        Err(stop) => return Err(stop),
    }
    code.mark(next)?;
    match step(alloc, context, code, room, j) {
        Ok(()) => {}
        Err(stop) => return Err(stop),
    }
    code.put(Piece::Jump(at, top))?;
    code.mark(end)?;
    Ok(())
}

/// The code of a `for`.
#[cycle(flatten)]
#[tactic(auto, unfolding(mm_flow::specs::Statements::for_code))]
fn for_code(
    alloc: Global,
    context: &Context<'_>,
    code: &mut Assembler,
    room: u32,
    at: At,
    i: &Option<Boxed<Stmt>>,
    c: &Option<Boxed<Expr>>,
    j: &Option<Boxed<Stmt>>,
    a: &Stmt,
) -> Result<(), Stop>
    ensures code { OnOk result (code.new ≡ done context.now (doing context.now (inner (for_code at (option_map stmt_code i.now) c.now (option_map stmt_code j.now) (stmt_code a.now))) code.old) code.old) }
    ensures count { OnOk result (count code.new ≡ count code.old + size (doing context.now (inner (for_code at (option_map stmt_code i.now) c.now (option_map stmt_code j.now) (stmt_code a.now))) code.old).flow) }
    ensures full { IfErr result (λ e. WhenFull e (context.now.limit < count code.old + size (doing context.now (inner (for_code at (option_map stmt_code i.now) c.now (option_map stmt_code j.now) (stmt_code a.now))) code.old).flow)) }
    ensures names { OnOk result (code.new.known.names ≡ code.old.known.names) }
{
    let Some(room) = room.checked_sub(1) else {
        return Err(Stop::NoMemory);
    };
    let depth = code.depth();
    match maybe(alloc, context, code, room, i) {
        Ok(()) => {}
        Err(stop) => return Err(stop),
    }
    match turns(alloc, context, code, room, at, c, j, a) {
        Ok(()) => {}
        Err(stop) => return Err(stop),
    }
    code.leave(depth);
    Ok(())
}

/// The code of a statement with a label.
#[cycle(flatten)]
fn label_code(
    alloc: Global,
    context: &Context<'_>,
    code: &mut Assembler,
    room: u32,
    x: &Ident,
    a: &Stmt,
) -> Result<(), Stop>
    ensures code { OnOk result (code.new ≡ done context.now (doing context.now (labelled x.now (stmt_code a.now)) code.old) code.old) }
    ensures count { OnOk result (count code.new ≡ count code.old + size (doing context.now (labelled x.now (stmt_code a.now)) code.old).flow) }
    ensures full { IfErr result (λ e. WhenFull e (context.now.limit < count code.old + size (doing context.now (labelled x.now (stmt_code a.now)) code.old).flow)) }
    ensures kept { OnOk result (take (length code.old.known.names) code.new.known.names ≡ code.old.known.names) }
{
    let Some(room) = room.checked_sub(1) else {
        return Err(Stop::NoMemory);
    };
    mark(context, code, x)?;
    stmt(alloc, context, code, room, a)
}

/// The code of a statement.
#[cycle(flatten)]
#[tactic(auto, unfolding(mm_flow::specs::Statements::stmt_code))]
fn stmt(
    alloc: Global,
    context: &Context<'_>,
    code: &mut Assembler,
    room: u32,
    s: &Stmt,
) -> Result<(), Stop>
    ensures code { OnOk result (code.new ≡ done context.now (doing context.now (stmt_code s.now) code.old) code.old) }
    ensures count { OnOk result (count code.new ≡ count code.old + size (doing context.now (stmt_code s.now) code.old).flow) }
    ensures full { IfErr result (λ e. WhenFull e (context.now.limit < count code.old + size (doing context.now (stmt_code s.now) code.old).flow)) }
    ensures kept { OnOk result (take (length code.old.known.names) code.new.known.names ≡ code.old.known.names) }
{
    let Some(room) = room.checked_sub(1) else {
        return Err(Stop::NoMemory);
    };
    match &s.node {
        StmtNode::Block(ss) => block(alloc, context, code, room, ss.as_slice()),
        StmtNode::Declare(locals) => declare(alloc, context, code, room, locals.items()),
        StmtNode::Assign(left, v) => assign(alloc, context, code, room, left.get(), v.get()),
        StmtNode::Do(v) => do_value(alloc, context, code, room, v.get()),
        StmtNode::Return(v) => give_back(alloc, context, code, room, s.at, v),
        StmtNode::If(c, a, b) => if_or_choice(
            alloc,
            context,
            code,
            room,
            s.at,
            c.get(),
            a.get(),
            b,
        ),
        StmtNode::While(c, a) => while_code(alloc, context, code, room, s.at, c.get(), a.get()),
        StmtNode::DoWhile(a, c) => do_code(alloc, context, code, room, s.at, a.get(), c.get()),
        StmtNode::For(i, c, j, a) => for_code(alloc, context, code, room, s.at, i, c, j, a.get()),
        StmtNode::Label(x, a) => label_code(alloc, context, code, room, &x.name, a.get()),
        StmtNode::Empty
        | StmtNode::DeclareThread(_)
        | StmtNode::Update(_, _, _)
        | StmtNode::Break
        | StmtNode::Continue
        | StmtNode::Assert(_, _)
        | StmtNode::Assume(_)
        | StmtNode::Fence
        | StmtNode::Lock(_)
        | StmtNode::Unlock(_)
        | StmtNode::Start(_, _)
        | StmtNode::Join(_)
        | StmtNode::Goto(_)
        | StmtNode::AtomBegin
        | StmtNode::AtomEnd => Ok(simple(alloc, context, code, s)?),
    }
}
