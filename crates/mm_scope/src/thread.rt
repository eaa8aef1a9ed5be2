ghost use Rattle.std.specs.Prelude.{◌≡◌, OnOk, slice_get};
ghost use Rattle.std.specs.Option.{option_copied};
ghost use Rattle.mm_scope.specs.Notes.{all_noted};
ghost use Rattle.mm_scope.specs.Steps.{after};
ghost use Rattle.mm_scope.specs.Threads.{noted_mutex, used_where, noted_thread, gives_thread, as_function, noted_body, started};

use crate::around::Around;
use crate::fault::Rule;
use crate::notes::{Notes, ThreadUse};
use crate::table::Meaning;
use crate::walk::Walk;
use mm_goto::{At, Ident, NoMemory};
use mm_tree::{Gives, Item, Word};

/// A mutex is locked or unlocked.
#[tactic(auto, unfolding(crate::specs::Steps::after, crate::specs::Threads::noted_mutex), using(crate::proofs::Steps::seams))]
pub fn note_mutex(walk: &mut Walk<'_>, word: &Word)
    ensures { walk.new ≡ after (noted_mutex word.now) walk.old }
{
    match walk.scope.meaning_of(&word.name) {
        None | Some(Meaning::Unready) => walk.notes.refuse(Rule::UnknownName, word.at),
        Some(Meaning::Mutex) => {}
        Some(_) => walk.notes.refuse(Rule::WrongType, word.at),
    }
}

fn note_use<'a>(
    notes: &mut Notes<'a>,
    outermost: bool,
    thread: ThreadUse<'a>,
) -> Result<(), NoMemory>
    ensures { OnOk result (notes.new ≡ all_noted notes.old (used_where outermost thread.entry)) }
{
    if outermost {
        notes.add_use(thread)?;
    }
    Ok(())
}

/// A thread is started with the function, or else joined.
#[tactic(auto, unfolding(crate::specs::Steps::after, crate::specs::Threads::noted_thread), using(crate::proofs::Steps::seams))]
pub fn note_thread<'a>(
    walk: &mut Walk<'a>,
    around: Around,
    function: Option<&'a Ident>,
    at: At,
    word: &'a Word,
) -> Result<(), NoMemory>
    ensures { OnOk result (walk.new ≡ after (noted_thread around (option_copied function.entry) at word.now) walk.old) }
{
    if !around.outermost {
        walk.notes.refuse(Rule::BadThread, at);
    }
    let variable = &word.name;
    match walk.scope.meaning_of(variable) {
        None | Some(Meaning::Unready) => {
            walk.notes.refuse(Rule::UnknownName, word.at);
            Ok(())
        }
        Some(Meaning::SharedThread) => {
            let thread = ThreadUse {
                function,
                local: false,
                variable,
                at,
            };
            note_use(&mut walk.notes, around.outermost, thread)
        }
        Some(Meaning::Thread) => {
            let thread = ThreadUse {
                function,
                local: true,
                variable,
                at,
            };
            note_use(&mut walk.notes, around.outermost, thread)
        }
        Some(_) => {
            walk.notes.refuse(Rule::WrongType, word.at);
            Ok(())
        }
    }
}

fn gives_thread(item: Option<&Item>) -> bool
    ensures { result ≡ gives_thread (option_copied item.entry) }
{
    match item {
        Some(
            Item::Function {
                gives: Gives::Thread,
                ..
            },
        ) => true,
        _ => false,
    }
}

/// A function that a thread runs, by its number.
fn note_function(items: &[Item], at: At, number: usize, notes: &mut Notes<'_>)
    ensures { notes.new ≡ all_noted notes.old (as_function at (gives_thread (slice_get items.now number))) }
{
    if !gives_thread(items.get(number)) {
        notes.refuse(Rule::BadThread, at);
    }
}

/// The function that a thread runs.
#[tactic(auto, unfolding(crate::specs::Steps::after, crate::specs::Threads::noted_body), using(crate::proofs::Steps::seams))]
fn note_body(walk: &mut Walk<'_>, items: &[Item], at: At, word: &Word)
    ensures { walk.new ≡ after (noted_body items.now at word.now) walk.old }
{
    match walk.scope.meaning_of(&word.name) {
        None | Some(Meaning::Unready) => walk.notes.refuse(Rule::UnknownName, word.at),
        Some(Meaning::Input) => walk.notes.refuse(Rule::BadThread, at),
        Some(Meaning::Function(number)) => note_function(items, at, number, &mut walk.notes),
        Some(Meaning::Ahead(number)) => note_function(items, at, number, &mut walk.notes),
        Some(_) => walk.notes.refuse(Rule::WrongType, word.at),
    }
}

#[tactic(auto, unfolding(crate::specs::Threads::started), using(crate::proofs::Steps::in_steps))]
pub fn note_start<'a>(
    walk: &mut Walk<'a>,
    items: &[Item],
    around: Around,
    at: At,
    word: &'a Word,
    body: &'a Word,
) -> Result<(), NoMemory>
    ensures { OnOk result (walk.new ≡ after (started items.now around at word.now body.now) walk.old) }
{
    note_thread(walk, around, Some(&body.name), at, word)?;
    note_body(walk, items, at, body);
    Ok(())
}
