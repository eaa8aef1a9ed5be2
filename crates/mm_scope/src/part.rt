ghost use Rattle.std.specs.Prelude.{◌≡◌, OnOk};
ghost use Rattle.mm_scope.specs.Notes.{all_noted};
ghost use Rattle.mm_scope.specs.Steps.{after, noting, if_there};
ghost use Rattle.mm_scope.specs.Parts.{noted_expr, noted_value, noted_assign, noted_update, is_nothing, fit_return, returned, refusal_unless, output_only};

use crate::around::Around;
use crate::expression::check_expression;
use crate::fault::Rule;
use crate::notes::Notes;
use crate::operand::{Kind, Operand, fit, never};
use crate::value::{check_left, check_value, fit_place};
use crate::walk::Walk;
use mm_goto::{At, NoMemory};
use mm_tree::{Expr, Gives, Item, Left, Node, Side, Value};
use sqlite_items::Boxed;

#[tactic(auto, unfolding(crate::specs::Steps::after))]
pub fn note_expr(walk: &mut Walk<'_>, e: &Expr)
    ensures { walk.new ≡ after (noted_expr e.now) walk.old }
{
    check_expression(&walk.scope, e, &mut walk.notes);
}

#[tactic(auto, using(crate::proofs::Steps::in_steps))]
pub fn note_test(walk: &mut Walk<'_>, test: &Option<Boxed<Expr>>)
    ensures { walk.new ≡ after (if_there noted_expr test.now) walk.old }
{
    if let Some(test) = test {
        note_expr(walk, test.get());
    }
}

/// The value at a place of this type.
#[tactic(auto, unfolding(crate::specs::Steps::after, crate::specs::Parts::noted_value))]
pub fn note_value(
    walk: &mut Walk<'_>,
    items: &[Item],
    around: Around,
    place: Option<Kind>,
    value: &Value,
) -> Result<(), NoMemory>
    ensures { OnOk result (walk.new ≡ after (noted_value items.now around place value.now) walk.old) }
{
    let operand = check_value(items, around.caller, &walk.scope, value, &mut walk.notes)?;
    fit_place(place, operand, &mut walk.notes);
    Ok(())
}

#[tactic(auto, unfolding(crate::specs::Steps::after, crate::specs::Parts::noted_assign))]
pub fn note_assign(
    walk: &mut Walk<'_>,
    items: &[Item],
    around: Around,
    left: &Left,
    value: &Value,
) -> Result<(), NoMemory>
    ensures { OnOk result (walk.new ≡ after (noted_assign items.now around left.now value.now) walk.old) }
{
    let place = check_left(&walk.scope, left, &mut walk.notes);
    let operand = check_value(items, around.caller, &walk.scope, value, &mut walk.notes)?;
    fit_place(place.kind, operand, &mut walk.notes);
    Ok(())
}

#[tactic(auto, unfolding(crate::specs::Steps::after, crate::specs::Parts::noted_update))]
pub fn note_update(walk: &mut Walk<'_>, left: &Left, e: &Expr)
    ensures { walk.new ≡ after (noted_update left.now e.now) walk.old }
{
    let place = check_left(&walk.scope, left, &mut walk.notes);
    fit(Kind::Int, place, &mut walk.notes);
    let operand = check_expression(&walk.scope, e, &mut walk.notes);
    fit(Kind::Int, operand, &mut walk.notes);
}

/// Whether the value is `0` or `NULL`.
fn is_nothing(value: &Value) -> bool
    ensures { result ≡ is_nothing value.now }
{
    match value {
        Value::Plain(e) => match &e.get().node {
            Node::Number(n) => *n == 0,
            Node::Null => true,
            _ => false,
        },
        _ => false,
    }
}

fn fit_return(gives: Gives, nothing: bool, operand: Operand, notes: &mut Notes<'_>)
    ensures { notes.new ≡ all_noted notes.old (fit_return gives nothing operand).notes }
{
    match gives {
        Gives::Int => {
            fit(Kind::Int, operand, notes);
        }
        Gives::Pointer => {
            fit(Kind::Pointer, operand, notes);
        }
        Gives::Nothing => never(operand, notes),
        Gives::Thread => {
            if !nothing {
                never(operand, notes);
            }
        }
    }
}

#[tactic(auto, unfolding(crate::specs::Steps::after, crate::specs::Parts::returned))]
pub fn note_return(
    walk: &mut Walk<'_>,
    items: &[Item],
    around: Around,
    value: &Value,
) -> Result<(), NoMemory>
    ensures { OnOk result (walk.new ≡ after (returned items.now around value.now) walk.old) }
{
    let operand = check_value(items, around.caller, &walk.scope, value, &mut walk.notes)?;
    fit_return(around.gives, is_nothing(value), operand, &mut walk.notes);
    Ok(())
}

/// `break` and `continue` stand in a loop.
#[tactic(auto, unfolding(crate::specs::Steps::after), using(crate::proofs::Steps::seams))]
pub fn note_jump(walk: &mut Walk<'_>, around: Around, at: At)
    ensures { walk.new ≡ after (λ names. noting (refusal_unless around.looped at)) walk.old }
{
    if !around.looped {
        walk.notes.refuse(Rule::WrongType, at);
    }
}

#[tactic(auto, unfolding(crate::specs::Steps::after), using(crate::proofs::Steps::seams))]
pub fn note_output_only(walk: &mut Walk<'_>, side: Side, at: At)
    ensures { walk.new ≡ after (λ names. noting (output_only side at)) walk.old }
{
    match side {
        Side::Source => walk.notes.refuse(Rule::OutputOnly, at),
        Side::Output => {}
    }
}
