//! Functions and items.
ghost use Rattle.std.specs.Prelude.{◌≡◌, [], OnOk, IfOk};
ghost use Rattle.mm_scope.specs.Notes.{no_notes, all_noted};
ghost use Rattle.mm_scope.specs.Steps.{after, in_turn};
ghost use Rattle.mm_names.specs.Labels.{with_labels, labels_notes};
ghost use Rattle.mm_names.specs.Tops.{after_top, top_notes};
ghost use Rattle.mm_names.specs.Items.{is_main, meaning_of_param, declared_param, in_function, body_of, labels_of, function_notes, listed_item, listed_items, with_ahead, ahead};
ghost use Rattle.mm_names.specs.Programs.{notes_of};

use crate::label::label_all;
use crate::top::{list_globals, list_input, list_name, list_words};
use mm_goto::NoMemory;
use mm_scope::{Around, Meaning, Notes, Scope, Table, Walk, declare_name, read_all};
use mm_tree::{Gives, Item, Param, Side, Stmt, Tree};
use std::alloc::Global;

/// Whether it is a function `main` that gives int and has no parameters.
pub fn is_main(item: &Item) -> bool
    ensures { result ≡ is_main item.now }
{
    match item {
        Item::Function {
            gives: Gives::Int,
            name,
            params,
            ..
        } => params.items().is_empty() && name.text() == "main",
        _ => false,
    }
}

fn meaning_of_param(gives: Gives, pointer: bool) -> Meaning
    ensures { result ≡ meaning_of_param gives pointer }
{
    match gives {
        Gives::Thread => Meaning::Handed,
        _ => {
            if pointer {
                Meaning::Pointer
            } else {
                Meaning::Int
            }
        }
    }
}

#[tactic(auto, unfolding(crate::specs::Items::declared_param))]
fn declare_param<'a>(walk: &mut Walk<'a>, around: Around, param: &'a Param) -> Result<(), NoMemory>
    ensures { OnOk result (walk.new ≡ after (declared_param around param.now) walk.old) }
{
    let meaning = meaning_of_param(around.gives, param.pointer);
    declare_name(walk, around, param.name.at, &param.name.name, meaning)
}

#[tactic(auto, using(crate::proofs::Tops::in_step_loops))]
fn declare_params<'a>(
    walk: &mut Walk<'a>,
    around: Around,
    params: &'a [Param],
) -> Result<(), NoMemory>
    ensures { OnOk result (walk.new ≡ after (in_turn (declared_param around) params.now) walk.old) }
{
    for param in params {
        declare_param(walk, around, param)?;
    }
    Ok(())
}

/// The parameters and the body of a function.
#[tactic(auto, unfolding(crate::specs::Items::body_of), using(crate::proofs::Tops::in_steps))]
fn read_body<'a>(
    walk: &mut Walk<'a>,
    items: &[Item],
    labels: &Table<'_>,
    around: Around,
    params: &'a [Param],
    body: &'a [Stmt],
) -> Result<(), NoMemory>
    ensures { OnOk result (walk.new ≡ after (body_of items.now labels.now around params.now body.now) walk.old) }
{
    declare_params(walk, around, params)?;
    read_all(walk, items, labels, around, body)
}

/// Where the statements of a function stand, behind so many local names.
fn in_function(side: Side, number: usize, item: &Item, gives: Gives, from: usize) -> Around
    ensures { result ≡ in_function side number item.now gives from }
{
    Around {
        side,
        caller: number,
        gives,
        from,
        looped: false,
        outermost: is_main(item),
    }
}

/// Declares the labels of a function, and gives the table of them.
#[tactic(auto, unfolding(crate::specs::Labels::labelled))]
fn read_labels<'a>(
    alloc: Global,
    notes: &mut Notes<'a>,
    side: Side,
    body: &'a [Stmt],
) -> Result<Table<'a>, NoMemory>
    ensures labels { IfOk result (λ labels. labels ≡ with_labels [] (labels_of body.now)) }
    ensures notes { OnOk result (notes.new ≡ all_noted notes.old (labels_notes side [] (labels_of body.now))) }
{
    let mut labels = Table::new(alloc);
    label_all(&mut labels, notes, side, body)?;
    Ok(labels)
}

/// Reads the text of a function.
#[tactic(auto, using(crate::proofs::Functions::in_functions))]
fn read_function<'a>(
    alloc: Global,
    walk: &mut Walk<'a>,
    items: &[Item],
    side: Side,
    number: usize,
    item: &Item,
    gives: Gives,
    params: &'a [Param],
    body: &'a [Stmt],
) -> Result<(), NoMemory>
    ensures { OnOk result (walk.new ≡ after_top (top_notes (function_notes side items.now number item.now gives params.now body.now)) walk.old) }
{
    let labels = read_labels(alloc, &mut walk.notes, side, body)?;
    let from = walk.scope.len();
    let around = in_function(side, number, item, gives, from);
    read_body(walk, items, &labels, around, params, body)?;
    walk.leave(from);
    Ok(())
}

/// Reads an item, by its number.
#[tactic(auto, unfolding(crate::specs::Items::listed_item), using(crate::proofs::Tops::in_tops))]
fn list_item<'a>(
    alloc: Global,
    walk: &mut Walk<'a>,
    items: &[Item],
    side: Side,
    number: usize,
    item: &'a Item,
) -> Result<(), NoMemory>
    ensures { OnOk result (walk.new ≡ after_top (listed_item side items.now number item.now) walk.old) }
{
    match item {
        Item::Globals(globals) => list_globals(walk, side, globals.items()),
        Item::Mutexes(words) => list_words(walk, side, Meaning::Mutex, words.items()),
        Item::Threads(words) => list_words(walk, side, Meaning::SharedThread, words.items()),
        Item::InputDecl(at, name) => list_input(walk, side, *at, name),
        Item::Function {
            at,
            gives,
            name,
            params,
            body,
        } => {
            list_name(walk, side, *at, name, Meaning::Function(number))?;
            read_function(
                alloc,
                walk,
                items,
                side,
                number,
                item,
                *gives,
                params.items(),
                body.items(),
            )
        }
    }
}

/// Reads the items, in their order.
#[tactic(auto, unfolding(crate::proofs::Tops::behind_items), using(crate::proofs::Tops::in_listing))]
fn list_items<'a>(
    alloc: Global,
    walk: &mut Walk<'a>,
    side: Side,
    items: &'a [Item],
) -> Result<(), NoMemory>
    ensures { OnOk result (walk.new ≡ after_top (listed_items side items.now 0 items.now) walk.old) }
{
    let mut left = items;
    let mut number = 0;
    while let [item, behind @ ..] = left {
        list_item(alloc, walk, items, side, number, item)?;
        number += 1;
        left = behind;
    }
    Ok(())
}

fn add_ahead<'a>(table: &mut Table<'a>, number: usize, item: &'a Item) -> Result<(), NoMemory>
    ensures { OnOk result (table.new ≡ with_ahead table.old number item.now) }
{
    match item {
        Item::Function { name, .. } => {
            if table.meaning_of(name.text()).is_none() {
                table.set(name.text(), Meaning::Ahead(number))?;
            }
            Ok(())
        }
        _ => Ok(()),
    }
}

/// The functions, which may be used before their text.
#[tactic(auto, unfolding(crate::specs::Items::ahead))]
fn ahead<'a>(alloc: Global, items: &'a [Item]) -> Result<Table<'a>, NoMemory>
    ensures { IfOk result (λ table. table ≡ ahead [] 0 items.now) }
{
    let mut table = Table::new(alloc);
    let mut left = items;
    let mut number = 0;
    while let [item, behind @ ..] = left {
        add_ahead(&mut table, number, item)?;
        number += 1;
        left = behind;
    }
    Ok(table)
}

/// What is noted in a program.
#[tactic(auto, unfolding(crate::specs::Tops::after_top, crate::specs::Programs::notes_of))]
pub fn read_program<'a>(alloc: Global, side: Side, tree: &'a Tree) -> Result<Notes<'a>, NoMemory>
    ensures { IfOk result (λ notes. notes ≡ all_noted no_notes (notes_of side tree.now)) }
{
    let items = tree.items.items();
    let globals = ahead(alloc, items)?;
    let mut walk = Walk {
        scope: Scope::new(alloc, globals),
        notes: Notes::new(alloc),
    };
    list_items(alloc, &mut walk, side, items)?;
    Ok(walk.notes)
}
