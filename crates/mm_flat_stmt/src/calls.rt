//! Functions, and what stands before the body of one that is called.
ghost use Rattle.std.specs.Prelude.{◌≡◌, ◌+◌, length, slice_get, IfOk, OnOk, IfNone, IfSome, None, Some};
ghost use Rattle.mm_flow.specs.Statements.{as_function, bound, function_of, input, is_function, is_input, sets};
ghost use Rattle.mm_flow.specs.reading.Assembling.{count, valued, with_flow};
ghost use Rattle.mm_flow.specs.Flow.{size};
ghost use Rattle.mm_flat_stmt.specs.reading.Bodies.{entered, entry_size, function_at};

use mm_flow::assembler::{Assembler, Piece};
use mm_flow::checks::set;
use mm_flow::context::Context;
use mm_flow::expressions::exprs;
use mm_flow::locals::Locals;
use mm_flow::tables::Functions;
use mm_flow::words::{constant, copy, the_local};
use mm_goto::{At, Ident, Instr, NoMemory, Pure};
use mm_tree::{Expr, Item, Param, Stmt};
use sqlite_items::Boxed;
use std::alloc::Global;
use std::marker::Model;

/// A function of the text.
#[derive(Drop)]
pub struct Function<'a> {
    pub params: &'a [Param],
    pub body: &'a [Stmt],
    /// How many assertions stand before it.
    pub asserts: u32,
}

impl<'a> Model for Function<'a> {
    ghost use Rattle.mm_flow.specs.Statements as statements;
    ghost use Rattle.mm_tree.specs.contracts.expr.Expr as expr;
    ghost use Rattle.mm_tree.specs.contracts.stmt.Stmt as stmt;
    ghost use Rattle.std.specs.Coded.{codes};

    ghost Value = { statements.Function };

    ghost coded = { Prim.hlevel (codes, expr.the_row.coded, stmt.the_row.coded) };

    ghost view = { λ f. record { params = f.params.now; body = f.body.now; asserts = f.asserts } };
}

/// Whether the item is the function of a name.
pub fn is_function(item: &Item, f: &str) -> bool
    ensures { result ≡ is_function f.now item.now }
{
    match item {
        Item::Function { name, .. } => name.text() == f,
        Item::Globals(_) | Item::Mutexes(_) | Item::Threads(_) | Item::InputDecl(_, _) => false,
    }
}

fn as_function<'a>(item: &'a Item, asserts: u32) -> Option<Function<'a>>
    ensures some { IfSome result (λ g. as_function item.now asserts ≡ Some g) }
    ensures none { IfNone result (as_function item.now asserts ≡ None) }
{
    match item {
        Item::Function { params, body, .. } => Some(Function {
            params: params.items(),
            body: body.items(),
            asserts,
        }),
        Item::Globals(_) | Item::Mutexes(_) | Item::Threads(_) | Item::InputDecl(_, _) => None,
    }
}

/// The function of a name, where so many assertions stand before each item.
pub fn function_of<'a>(items: &Functions<'a>, asserts: &[u32], f: &Ident) -> Option<Function<'a>>
    ensures some { IfSome result (λ g. function_of items.now asserts.now f.now ≡ Some g) }
    ensures none { IfNone result (function_of items.now asserts.now f.now ≡ None) }
{
    match items.place_of(f.text()) {
        Some(i) => function_at(items.items(), asserts, i),
        None => None,
    }
}

/// The function that is an item.
fn function_at<'a>(items: &'a [Item], asserts: &[u32], i: usize) -> Option<Function<'a>>
    ensures some { IfSome result (λ g. function_at (slice_get items.now i) (slice_get asserts.now i) ≡ Some g) }
    ensures none { IfNone result (function_at (slice_get items.now i) (slice_get asserts.now i) ≡ None) }
{
    match items.get(i) {
        Some(item) => match asserts.get(i) {
            Some(asserts) => as_function(item, *asserts),
            None => None,
        },
        None => None,
    }
}

/// Whether the name is of a function that gives any int.
pub fn is_input(f: &Ident) -> bool
    ensures { result ≡ is_input f.now }
{
    f.text().starts_with("nondet_")
}

/// A call of such a function.
pub fn input(
    alloc: Global,
    context: &Context<'_>,
    code: &mut Assembler,
    at: At,
) -> Result<Boxed<Pure>, NoMemory>
    ensures pure { IfOk result (λ p. p ≡ (input at code.old.known.next).pure) }
    ensures code { OnOk result (code.new ≡ valued context.now (input at code.old.known.next) code.old) }
{
    let t = code.fresh()?;
    code.put(Piece::Do(at, Instr::Input(t)))?;
    the_local(alloc, t)
}

/// The names of the parameters, whose locals are from this one on.
pub fn bind(alloc: Global, params: &[Param], first: u32) -> Result<Locals, NoMemory>
    ensures { IfOk result (λ names. names ≡ bound params.now first) }
{
    let mut names = Locals::new(alloc);
    let mut number = first;
    for param in params {
        names.push(alloc, &param.name.name, number)?;
        match number.checked_add(1) {
            Some(next) => number = next,
            None => return Err(NoMemory),
        }
    }
    Ok(names)
}

/// Sets the locals from this one on.
fn set_all(
    alloc: Global,
    context: &Context<'_>,
    code: &mut Assembler,
    at: At,
    first: u32,
    pures: &[Pure],
) -> Result<(), NoMemory>
    ensures code { OnOk result (code.new ≡ with_flow context.now (sets at pures.now first) code.old) }
{
    let mut number = first;
    for e in pures {
        let e = copy(alloc, e)?;
        set(code, at, number, e)?;
        match number.checked_add(1) {
            Some(next) => number = next,
            None => return Err(NoMemory),
        }
    }
    Ok(())
}

/// What stands before a called function's body. It gives the local for what the function returns.
#[tactic(auto, using(mm_flow::proofs::Grows::emit_size))]
pub fn begin(
    alloc: Global,
    context: &Context<'_>,
    code: &mut Assembler,
    at: At,
    function: &Function<'_>,
    es: &[Expr],
) -> Result<u32, NoMemory>
    ensures ret { IfOk result (λ ret. ret ≡ code.old.known.next + length function.now.params) }
    ensures code { OnOk result (code.new ≡ entered context.now at function.now es.now code.old) }
    ensures count { OnOk result (count code.new ≡ count code.old + entry_size context.now at function.now es.now code.old) }
{
    let first = code.next();
    code.skip(function.params.len())?;
    let ret = code.fresh()?;
    let pures = exprs(alloc, context, code, es)?;
    set_all(alloc, context, code, at, first, &pures)?;
    let zero = constant(alloc, 0)?;
    set(code, at, ret, zero)?;
    Ok(ret)
}
