//! Global names.
ghost use Rattle.std.specs.Prelude.{◌≡◌, OnOk};
ghost use Rattle.std.specs.Option.{option_copied};
ghost use Rattle.mm_tree.specs.Trees.{node_of};
ghost use Rattle.mm_scope.specs.Notes.{all_noted};
ghost use Rattle.mm_names.specs.Tops.{after_top, top_notes, reserved_at, listed, listed_name, tops};
ghost use Rattle.mm_names.specs.Items.{meaning_of_global, refused_if, too_long, length_notes, noted_length, is_index, index_notes, address_notes, listed_start, listed_global, woven_prototype, unknown_prototype, input_notes, listed_input, listed_word};

use mm_goto::{At, Ident, NoMemory};
use mm_scope::{
    Meaning, Notes, Rule, Scope, Walk, check_expression, fit, is_reserved, kind_if_pointer,
};
use mm_tree::{Expr, Global, Node, Side, Word};

#[tactic(auto, unfolding(crate::specs::Tops::after_top, crate::specs::Tops::top_notes, mm_scope::specs::Steps::reserved))]
fn reserve_global(walk: &mut Walk<'_>, side: Side, at: At, name: &Ident)
    ensures { walk.new ≡ after_top (top_notes (reserved_at side at name.now)) walk.old }
{
    if is_reserved(side, name) {
        walk.notes.refuse(Rule::ReservedName, at);
    }
}

#[tactic(auto, unfolding(crate::specs::Tops::after_top, crate::specs::Tops::listed))]
fn declare_global<'a>(
    walk: &mut Walk<'a>,
    at: At,
    name: &'a Ident,
    meaning: Meaning,
) -> Result<(), NoMemory>
    ensures { OnOk result (walk.new ≡ after_top (listed at name.now meaning) walk.old) }
{
    if walk.scope.declare(name, meaning)? {
        walk.notes.refuse(Rule::TwiceDeclared, at);
    }
    Ok(())
}

/// Declares a global name.
#[tactic(auto, unfolding(crate::specs::Tops::listed_name), using(crate::proofs::Tops::in_tops))]
pub fn list_name<'a>(
    walk: &mut Walk<'a>,
    side: Side,
    at: At,
    name: &'a Ident,
    meaning: Meaning,
) -> Result<(), NoMemory>
    ensures { OnOk result (walk.new ≡ after_top (listed_name side at name.now meaning) walk.old) }
{
    reserve_global(walk, side, at, name);
    declare_global(walk, at, name, meaning)
}

#[tactic(auto, unfolding(crate::specs::Items::listed_word))]
fn list_word<'a>(
    walk: &mut Walk<'a>,
    side: Side,
    meaning: Meaning,
    word: &'a Word,
) -> Result<(), NoMemory>
    ensures { OnOk result (walk.new ≡ after_top (listed_word side meaning word.now) walk.old) }
{
    list_name(walk, side, word.at, &word.name, meaning)
}

/// Declares global names of one meaning.
#[tactic(auto, using(crate::proofs::Tops::in_loops))]
pub fn list_words<'a>(
    walk: &mut Walk<'a>,
    side: Side,
    meaning: Meaning,
    words: &'a [Word],
) -> Result<(), NoMemory>
    ensures { OnOk result (walk.new ≡ after_top (tops (listed_word side meaning) words.now) walk.old) }
{
    for word in words {
        list_word(walk, side, meaning, word)?;
    }
    Ok(())
}

fn meaning_of_global(pointer: bool, len: Option<i32>) -> Meaning
    ensures { result ≡ meaning_of_global pointer len }
{
    match len {
        Some(len) => Meaning::Array(len),
        None => {
            if pointer {
                Meaning::Pointer
            } else {
                Meaning::Shared
            }
        }
    }
}

fn refuse_if(wrong: bool, at: At, notes: &mut Notes<'_>)
    ensures { notes.new ≡ all_noted notes.old (refused_if wrong at) }
{
    if wrong {
        notes.refuse(Rule::WrongType, at);
    }
}

fn refuse_too_long(negative: bool, extra: Option<&Expr>, notes: &mut Notes<'_>)
    ensures { notes.new ≡ all_noted notes.old (too_long negative (option_copied extra.entry)) }
{
    if let Some(extra) = extra {
        if !negative {
            notes.refuse(Rule::WrongType, extra.at);
        }
    }
}

#[tactic(auto, using(crate::proofs::Tops::seams))]
fn check_length(at: At, init: &[Expr], len: Option<i32>, notes: &mut Notes<'_>)
    ensures { notes.new ≡ all_noted notes.old (length_notes at init.now len) }
{
    if let Some(len) = len {
        refuse_if(len < 1, at, notes);
        refuse_too_long(len < 0, init.get(len.cast_unsigned() as usize), notes);
    }
}

#[tactic(auto, unfolding(crate::specs::Tops::after_top, crate::specs::Tops::top_notes))]
fn note_length(walk: &mut Walk<'_>, global: &Global)
    ensures { walk.new ≡ after_top (top_notes (noted_length global.now)) walk.old }
{
    check_length(global.at, global.init.items(), global.len, &mut walk.notes);
}

/// Whether the expression is the number of an element of so many.
fn is_index(len: i32, e: &Expr) -> bool
    ensures { result ≡ is_index len (node_of e.now) }
{
    match &e.node {
        Node::Number(n) => 0 <= *n && *n < len,
        _ => false,
    }
}

fn check_index(index: &Expr, array: Option<Meaning>, notes: &mut Notes<'_>)
    ensures { notes.new ≡ all_noted notes.old (index_notes index.now array) }
{
    if let Some(Meaning::Array(len)) = array {
        refuse_if(!is_index(len, index), index.at, notes);
    }
}

fn check_address(scope: &Scope<'_>, e: &Expr, notes: &mut Notes<'_>)
    ensures { notes.new ≡ all_noted notes.old (address_notes scope.now (node_of e.now)) }
{
    if let Node::AddrIndex(word, index) = &e.node {
        check_index(index.get(), scope.meaning_of(&word.name), notes);
    }
}

#[tactic(auto, unfolding(crate::specs::Tops::after_top, crate::specs::Tops::top_notes, crate::specs::Items::listed_start, crate::specs::Items::start_notes), using(crate::proofs::Tops::seams))]
fn note_start(walk: &mut Walk<'_>, pointer: bool, e: &Expr)
    ensures { walk.new ≡ after_top (listed_start pointer e.now) walk.old }
{
    let operand = check_expression(&walk.scope, e, &mut walk.notes);
    fit(kind_if_pointer(pointer), operand, &mut walk.notes);
    check_address(&walk.scope, e, &mut walk.notes);
}

#[tactic(auto, using(crate::proofs::Tops::in_loops))]
fn note_starts(walk: &mut Walk<'_>, pointer: bool, init: &[Expr])
    ensures { walk.new ≡ after_top (tops (listed_start pointer) init.now) walk.old }
{
    for e in init {
        note_start(walk, pointer, e);
    }
}

#[tactic(auto, unfolding(crate::specs::Items::listed_global), using(crate::proofs::Tops::in_tops))]
fn list_global<'a>(walk: &mut Walk<'a>, side: Side, global: &'a Global) -> Result<(), NoMemory>
    ensures { OnOk result (walk.new ≡ after_top (listed_global side global.now) walk.old) }
{
    let meaning = meaning_of_global(global.pointer, global.len);
    list_name(walk, side, global.at, &global.name, meaning)?;
    note_length(walk, global);
    note_starts(walk, global.pointer, global.init.items());
    Ok(())
}

/// Declares global variables.
#[tactic(auto, using(crate::proofs::Tops::in_loops))]
pub fn list_globals<'a>(
    walk: &mut Walk<'a>,
    side: Side,
    globals: &'a [Global],
) -> Result<(), NoMemory>
    ensures { OnOk result (walk.new ≡ after_top (tops (listed_global side) globals.now) walk.old) }
{
    for global in globals {
        list_global(walk, side, global)?;
    }
    Ok(())
}

fn refuse_woven(side: Side, at: At, woven: bool, notes: &mut Notes<'_>)
    ensures { notes.new ≡ all_noted notes.old (woven_prototype side at woven) }
{
    match side {
        Side::Source => {
            if woven {
                notes.refuse(Rule::ReservedName, at);
            }
        }
        Side::Output => {}
    }
}

fn refuse_unknown(at: At, known: bool, notes: &mut Notes<'_>)
    ensures { notes.new ≡ all_noted notes.old (unknown_prototype at known) }
{
    if !known {
        notes.refuse(Rule::UnknownName, at);
    }
}

#[tactic(auto, unfolding(crate::specs::Tops::after_top, crate::specs::Tops::top_notes), using(crate::proofs::Tops::seams))]
fn note_input(walk: &mut Walk<'_>, side: Side, at: At, name: &Ident)
    ensures { walk.new ≡ after_top (top_notes (input_notes side at name.now)) walk.old }
{
    let bytes = name.text().as_bytes();
    refuse_woven(side, at, bytes.starts_with(b"wm_"), &mut walk.notes);
    refuse_unknown(at, bytes.starts_with(b"nondet_"), &mut walk.notes);
}

/// Declares a function without a body.
#[tactic(auto, unfolding(crate::specs::Items::listed_input), using(crate::proofs::Tops::in_tops))]
pub fn list_input<'a>(
    walk: &mut Walk<'a>,
    side: Side,
    at: At,
    name: &'a Ident,
) -> Result<(), NoMemory>
    ensures { OnOk result (walk.new ≡ after_top (listed_input side at name.now) walk.old) }
{
    note_input(walk, side, at, name);
    declare_global(walk, at, name, Meaning::Input)
}
