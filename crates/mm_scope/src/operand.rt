ghost use Rattle.std.specs.Prelude.{◌≡◌, []};
ghost use Rattle.mm_scope.specs.Notes.{all_noted};
ghost use Rattle.mm_scope.specs.Operands.{fits, fit, made, if_known, join, unary, binary, deref, element, address, fetch_add, compare_swap, choice, never};

use crate::fault::Rule;
use crate::notes::Notes;
use mm_goto::{At, Binary, Unary};

/// The types of values. A call of a function without a value has the type `Nothing`.
#[derive(Clone, Copy, PartialEq, Eq)]
pub enum Kind {
    Int,
    Pointer,
    Nothing,
}

/// What is known of an expression: its place, whether it is the number 0, and its type where no part of it is refused.
#[derive(Clone, Copy)]
pub struct Operand {
    pub at: At,
    pub zero: bool,
    pub kind: Option<Kind>,
}

#[tactic(auto, unfolding(crate::specs::Operands::fits))]
fn fits(wanted: Kind, operand: Operand) -> bool
    ensures { result ≡ fits wanted operand }
{
    match operand.kind {
        None => true,
        Some(kind) => match wanted {
            Kind::Pointer if operand.zero => true,
            _ => kind == wanted,
        },
    }
}

pub fn made(at: At, kind: Option<Kind>) -> Operand
    ensures { result ≡ made at kind }
{
    Operand {
        at,
        zero: false,
        kind,
    }
}

/// The operand at a place of this type.
#[tactic(auto, unfolding(crate::specs::Operands::fit))]
pub fn fit(wanted: Kind, operand: Operand, notes: &mut Notes<'_>) -> Operand
    ensures operand { result ≡ (fit wanted operand).operand }
    ensures notes { notes.new ≡ all_noted notes.old (fit wanted operand).notes }
{
    if fits(wanted, operand) {
        operand
    } else {
        notes.refuse(Rule::WrongType, operand.at);
        Operand {
            at: operand.at,
            zero: operand.zero,
            kind: None,
        }
    }
}

/// The operand at a place where no value may stand.
#[tactic(auto, unfolding(crate::specs::Operands::never))]
pub fn never(operand: Operand, notes: &mut Notes<'_>)
    ensures { notes.new ≡ all_noted notes.old (never operand).notes }
{
    if operand.kind.is_some() {
        notes.refuse(Rule::WrongType, operand.at);
    }
}

fn one(at: At, kind: Kind, a: Operand) -> Operand
    ensures { result ≡ made at (if_known a.kind (Some kind)) }
{
    made(at, if a.kind.is_some() { Some(kind) } else { None })
}

fn two(at: At, kind: Kind, a: Operand, b: Operand) -> Operand
    ensures { result ≡ made at (if_known a.kind (if_known b.kind (Some kind))) }
{
    made(
        at,
        if a.kind.is_some() && b.kind.is_some() {
            Some(kind)
        } else {
            None
        },
    )
}

/// What two operands that must have one type are together.
#[tactic(auto, unfolding(crate::specs::Operands::join))]
pub fn join(at: At, a: Operand, b: Operand, notes: &mut Notes<'_>) -> Operand
    ensures operand { result ≡ (join at a b).operand }
    ensures notes { notes.new ≡ all_noted notes.old (join at a b).notes }
{
    match (a.kind, b.kind) {
        (Some(Kind::Int), Some(Kind::Int)) => made(at, Some(Kind::Int)),
        (Some(Kind::Pointer), Some(Kind::Pointer)) => made(at, Some(Kind::Pointer)),
        (Some(_), Some(_)) if a.zero || b.zero => made(at, Some(Kind::Pointer)),
        (Some(_), Some(_)) => {
            notes.refuse(Rule::WrongType, b.at);
            made(at, None)
        }
        _ => made(at, None),
    }
}

#[tactic(auto, unfolding(crate::specs::Operands::unary, crate::specs::Operands::one))]
pub fn unary(at: At, op: Unary, a: Operand, notes: &mut Notes<'_>) -> Operand
    ensures operand { result ≡ (unary at op a).operand }
    ensures notes { notes.new ≡ all_noted notes.old (unary at op a).notes }
{
    match op {
        Unary::Not => one(at, Kind::Int, a),
        _ => one(at, Kind::Int, fit(Kind::Int, a, notes)),
    }
}

#[tactic(auto, unfolding(crate::specs::Operands::binary, crate::specs::Operands::one, crate::specs::Operands::two))]
pub fn binary(at: At, op: Binary, a: Operand, b: Operand, notes: &mut Notes<'_>) -> Operand
    ensures operand { result ≡ (binary at op a b).operand }
    ensures notes { notes.new ≡ all_noted notes.old (binary at op a b).notes }
{
    match op {
        Binary::Land | Binary::Lor => two(at, Kind::Int, a, b),
        Binary::Eq | Binary::Ne => one(at, Kind::Int, join(at, a, b, notes)),
        _ => {
            let a = fit(Kind::Int, a, notes);
            let b = fit(Kind::Int, b, notes);
            two(at, Kind::Int, a, b)
        }
    }
}

#[tactic(auto, unfolding(crate::specs::Operands::deref, crate::specs::Operands::one))]
pub fn deref(at: At, a: Operand, notes: &mut Notes<'_>) -> Operand
    ensures operand { result ≡ (deref at a).operand }
    ensures notes { notes.new ≡ all_noted notes.old (deref at a).notes }
{
    one(at, Kind::Int, fit(Kind::Pointer, a, notes))
}

#[tactic(auto, unfolding(crate::specs::Operands::element, crate::specs::Operands::two))]
pub fn element(at: At, kind: Kind, a: Operand, index: Operand, notes: &mut Notes<'_>) -> Operand
    ensures operand { result ≡ (element at kind a index).operand }
    ensures notes { notes.new ≡ all_noted notes.old (element at kind a index).notes }
{
    two(at, kind, a, fit(Kind::Int, index, notes))
}

#[tactic(auto, unfolding(crate::specs::Operands::address, crate::specs::Operands::one))]
pub fn address(at: At, a: Operand) -> Operand
    ensures operand { result ≡ (address at a).operand }
    ensures notes { (address at a).notes ≡ [] }
{
    one(at, Kind::Pointer, a)
}

#[tactic(auto, unfolding(crate::specs::Operands::fetch_add, crate::specs::Operands::two))]
pub fn fetch_add(at: At, p: Operand, e: Operand, notes: &mut Notes<'_>) -> Operand
    ensures operand { result ≡ (fetch_add at p e).operand }
    ensures notes { notes.new ≡ all_noted notes.old (fetch_add at p e).notes }
{
    let p = fit(Kind::Pointer, p, notes);
    let e = fit(Kind::Int, e, notes);
    two(at, Kind::Int, p, e)
}

#[tactic(auto, unfolding(crate::specs::Operands::compare_swap, crate::specs::Operands::two))]
pub fn compare_swap(at: At, p: Operand, e: Operand, f: Operand, notes: &mut Notes<'_>) -> Operand
    ensures operand { result ≡ (compare_swap at p e f).operand }
    ensures notes { notes.new ≡ all_noted notes.old (compare_swap at p e f).notes }
{
    let p = fit(Kind::Pointer, p, notes);
    let e = fit(Kind::Int, e, notes);
    let f = fit(Kind::Int, f, notes);
    two(at, Kind::Int, two(at, Kind::Int, p, e), f)
}

#[tactic(auto, unfolding(crate::specs::Operands::choice))]
pub fn choice(at: At, test: Operand, a: Operand, b: Operand, notes: &mut Notes<'_>) -> Operand
    ensures operand { result ≡ (choice at test a b).operand }
    ensures notes { notes.new ≡ all_noted notes.old (choice at test a b).notes }
{
    let both = join(at, a, b, notes);
    if test.kind.is_some() {
        both
    } else {
        Operand {
            at: both.at,
            zero: both.zero,
            kind: None,
        }
    }
}
