ghost use Rattle.std.specs.Prelude.{◌≡◌, IfOk, OnOk, [], ◌∷◌, is_some, None};
ghost use Rattle.mm_scope.specs.Notes.{all_noted};
ghost use Rattle.mm_scope.specs.Operands.{made};
ghost use Rattle.std.specs.Option.{option_copied};
ghost use Rattle.mm_scope.specs.Values.{kind_if_pointer, argument, rest, judged_argument, arguments, are_known, kind_where, can_be_called, kind_given, call_fault, input_call, function_call, other_call, call, refused_by, judged_value, judged_left, fit_place};

use crate::expression::{Sort, check_expression, named};
use crate::fault::Rule;
use crate::notes::{Call, Notes};
use crate::operand::{Kind, Operand, compare_swap, deref, element, fetch_add, fit, made};
use crate::scope::Scope;
use crate::table::Meaning;
use mm_goto::{At, Ident, NoMemory};
use mm_tree::{Expr, Gives, Item, Left, LeftNode, Param, Value};

pub fn kind_if_pointer(pointer: bool) -> Kind
    ensures { result ≡ kind_if_pointer pointer }
{
    if pointer { Kind::Pointer } else { Kind::Int }
}

fn fit_argument(param: Option<&Param>, operand: Operand, notes: &mut Notes<'_>) -> Operand
    ensures operand { result ≡ (argument (option_copied param.entry) operand).operand }
    ensures notes { notes.new ≡ all_noted notes.old (argument (option_copied param.entry) operand).notes }
{
    match param {
        Some(param) => fit(kind_if_pointer(param.pointer), operand, notes),
        None => operand,
    }
}

/// Checks an argument. Whether it is not refused.
fn check_argument(
    scope: &Scope<'_>,
    param: Option<&Param>,
    arg: &Expr,
    notes: &mut Notes<'_>,
) -> bool
    ensures known { result ≡ is_some (judged_argument scope.now (option_copied param.entry) arg.now).operand.kind }
    ensures notes { notes.new ≡ all_noted notes.old (judged_argument scope.now (option_copied param.entry) arg.now).notes }
{
    let operand = check_expression(scope, arg, notes);
    fit_argument(param, operand, notes).kind.is_some()
}

fn rest(params: &[Param]) -> &[Param]
    ensures { result.now ≡ rest params.now }
{
    match params {
        [_, rest @ ..] => rest,
        [] => params,
    }
}

/// Checks the arguments of a call. Whether none is refused.
#[tactic(auto, unfolding(crate::specs::Values::arguments, crate::specs::Values::are_known))]
fn check_arguments(
    scope: &Scope<'_>,
    params: &[Param],
    args: &[Expr],
    notes: &mut Notes<'_>,
) -> bool
    ensures known { result ≡ are_known scope.now params.now args.now }
    ensures notes { notes.new ≡ all_noted notes.old (arguments scope.now params.now args.now) }
{
    let mut known = true;
    let mut params = params;
    let mut args = args;
    while let [arg, more @ ..] = args {
        let fits = check_argument(scope, params.first(), arg, notes);
        known = known && fits;
        params = rest(params);
        args = more;
    }
    known
}

fn kind_where(known: bool, kind: Option<Kind>) -> Option<Kind>
    ensures { result ≡ kind_where known kind }
{
    if known { kind } else { None }
}

fn can_be_called(name: &Ident, gives: Gives) -> bool
    ensures { result ≡ can_be_called name.now gives }
{
    match gives {
        Gives::Thread => false,
        _ => name.text() != "main",
    }
}

fn kind_given(gives: Gives) -> Option<Kind>
    ensures { result ≡ kind_given gives }
{
    match gives {
        Gives::Int => Some(Kind::Int),
        Gives::Pointer => Some(Kind::Pointer),
        Gives::Nothing => Some(Kind::Nothing),
        Gives::Thread => None,
    }
}

fn note_call(at: At, fits: bool, notes: &mut Notes<'_>)
    ensures { notes.new ≡ all_noted notes.old (call_fault at fits) }
{
    if !fits {
        notes.refuse(Rule::WrongType, at);
    }
}

fn input_call(scope: &Scope<'_>, at: At, args: &[Expr], notes: &mut Notes<'_>) -> Operand
    ensures operand { result ≡ (input_call scope.now at args.now).operand }
    ensures notes { notes.new ≡ all_noted notes.old (input_call scope.now at args.now).notes }
{
    note_call(at, args.len() == 0, notes);
    let known = check_arguments(scope, &[], args, notes);
    made(at, kind_where(known, Some(Kind::Int)))
}

fn other_call(
    scope: &Scope<'_>,
    at: At,
    args: &[Expr],
    fault: Option<Rule>,
    notes: &mut Notes<'_>,
) -> Operand
    ensures operand { result ≡ made at None }
    ensures notes { notes.new ≡ all_noted notes.old (other_call scope.now at args.now (refused_by at fault)).notes }
{
    if let Some(rule) = fault {
        notes.refuse(rule, at);
    }
    check_arguments(scope, &[], args, notes);
    made(at, None)
}

fn function_call(
    scope: &Scope<'_>,
    caller: usize,
    callee: usize,
    at: At,
    args: &[Expr],
    item: &Item,
    notes: &mut Notes<'_>,
) -> Result<Operand, NoMemory>
    ensures operand { IfOk result (λ o. o ≡ (function_call scope.now caller callee at args.now item.now).operand) }
    ensures notes { OnOk result (notes.new ≡ all_noted notes.old (function_call scope.now caller callee at args.now item.now).notes) }
{
    match item {
        Item::Function {
            gives,
            name,
            params,
            ..
        } => {
            notes.add_call(Call { caller, callee, at })?;
            let fits = can_be_called(name, *gives) && args.len() == params.items().len();
            note_call(at, fits, notes);
            let known = check_arguments(scope, params.items(), args, notes);
            Ok(made(at, kind_where(known, kind_given(*gives))))
        }
        _ => Ok(made(at, None)),
    }
}

#[tactic(auto, unfolding(crate::specs::Values::call))]
pub fn check_call(
    items: &[Item],
    scope: &Scope<'_>,
    caller: usize,
    at: At,
    name: &Ident,
    args: &[Expr],
    notes: &mut Notes<'_>,
) -> Result<Operand, NoMemory>
    ensures operand { IfOk result (λ o. o ≡ (call items.now scope.now caller at name.now args.now).operand) }
    ensures notes { OnOk result (notes.new ≡ all_noted notes.old (call items.now scope.now caller at name.now args.now).notes) }
{
    if name.text().as_bytes().starts_with(b"nondet_") {
        return Ok(input_call(scope, at, args, notes));
    }
    match scope.meaning_of(name) {
        Some(Meaning::Function(callee) | Meaning::Ahead(callee)) => match items.get(callee) {
            Some(item) => function_call(scope, caller, callee, at, args, item, notes),
            None => Ok(other_call(scope, at, args, Some(Rule::UnknownName), notes)),
        },
        None | Some(Meaning::Unready) => Ok(other_call(
            scope,
            at,
            args,
            Some(Rule::UnknownName),
            notes,
        )),
        Some(Meaning::Input) => Ok(other_call(scope, at, args, None, notes)),
        Some(_) => Ok(other_call(scope, at, args, Some(Rule::WrongType), notes)),
    }
}

/// What is known of a value.
#[tactic(auto, unfolding(crate::specs::Values::judged_value))]
pub fn check_value(
    items: &[Item],
    caller: usize,
    scope: &Scope<'_>,
    value: &Value,
    notes: &mut Notes<'_>,
) -> Result<Operand, NoMemory>
    ensures operand { IfOk result (λ o. o ≡ (judged_value items.now caller scope.now value.now).operand) }
    ensures notes { OnOk result (notes.new ≡ all_noted notes.old (judged_value items.now caller scope.now value.now).notes) }
{
    match value {
        Value::Plain(e) => Ok(check_expression(scope, e.get(), notes)),
        Value::Call(at, name, args) => check_call(
            items,
            scope,
            caller,
            *at,
            name,
            args.items(),
            notes,
        ),
        Value::FetchAdd(at, p, e) => {
            let p = check_expression(scope, p.get(), notes);
            let e = check_expression(scope, e.get(), notes);
            Ok(fetch_add(*at, p, e, notes))
        }
        Value::CompareSwap(at, p, e, f) => {
            let p = check_expression(scope, p.get(), notes);
            let e = check_expression(scope, e.get(), notes);
            let f = check_expression(scope, f.get(), notes);
            Ok(compare_swap(*at, p, e, f, notes))
        }
    }
}

/// What is known of a left side.
#[tactic(auto, unfolding(crate::specs::Values::judged_left))]
pub fn check_left(scope: &Scope<'_>, left: &Left, notes: &mut Notes<'_>) -> Operand
    ensures operand { result ≡ (judged_left scope.now left.now).operand }
    ensures notes { notes.new ≡ all_noted notes.old (judged_left scope.now left.now).notes }
{
    let at = left.at;
    match &left.node {
        LeftNode::Name(name) => named(Sort::Variable, scope, at, name, notes),
        LeftNode::Index(name, index) => {
            let array = named(Sort::Array, scope, at, name, notes);
            let index = check_expression(scope, index.get(), notes);
            element(at, Kind::Int, array, index, notes)
        }
        LeftNode::Deref(e) => {
            let e = check_expression(scope, e.get(), notes);
            deref(at, e, notes)
        }
    }
}

/// The value at a place that has this type.
#[tactic(auto, unfolding(crate::specs::Values::fit_place))]
pub fn fit_place(place: Option<Kind>, value: Operand, notes: &mut Notes<'_>)
    ensures { notes.new ≡ all_noted notes.old (fit_place place value).notes }
{
    if let Some(kind) = place {
        fit(kind, value, notes);
    }
}
