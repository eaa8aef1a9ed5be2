//! What a program declares.
ghost use Rattle.std.specs.Prelude.{◌≡◌, ◌++◌, ◌∷◌, [], IfOk, OnOk, filter_map, map};
ghost use Rattle.std.specs.List.{flat_map};
ghost use Rattle.mm_scope.specs.Notes.{no_notes, all_noted};
ghost use Rattle.mm_names.specs.Programs.{notes_of};
ghost use Rattle.mm_names.specs.Results.{name_of, mutexes_in, function_of, declared_of, in_program};

use crate::layout::cells_of;
use mm_goto::{Cell, Ident, List, NoMemory};
use mm_scope::{Notes, ThreadUse};
use mm_tree::{Item, Side, Tree, Word};
use std::alloc::Global;

/// A program that makes sense, with what it declares.
#[derive(Drop)]
pub struct Checked {
    pub side: Side,
    pub tree: Tree,
    /// The cells, by their numbers. Empty where there are more than 65,536.
    pub cells: List<Cell>,
    /// The names of the mutexes, by their numbers.
    pub mutexes: List<Ident>,
    /// The function of each thread, from thread 1 on.
    pub starts: List<Ident>,
    /// How many assertions there are, or 2^32 - 1 where there are more.
    pub asserts: u32,
}

/// What a program declares, as in `Checked`.
#[derive(Drop)]
pub struct Declared {
    pub cells: List<Cell>,
    pub mutexes: List<Ident>,
    pub starts: List<Ident>,
    pub asserts: u32,
}

fn add_name(alloc: Global, name: &Ident, names: &mut Vec<Ident>) -> Result<(), NoMemory>
    ensures { OnOk result (names.new.items ≡ names.old.items ++ name.now ∷ []) }
{
    names.push(Ident::copy_of(alloc, name.text())?)?;
    Ok(())
}

fn add_words(alloc: Global, words: &[Word], names: &mut Vec<Ident>) -> Result<(), NoMemory>
    ensures { OnOk result (names.new.items ≡ names.old.items ++ map name_of words.now) }
{
    for word in words {
        add_name(alloc, &word.name, names)?;
    }
    Ok(())
}

fn add_mutexes(alloc: Global, item: &Item, names: &mut Vec<Ident>) -> Result<(), NoMemory>
    ensures { OnOk result (names.new.items ≡ names.old.items ++ mutexes_in item.now) }
{
    match item {
        Item::Mutexes(words) => add_words(alloc, words.items(), names),
        _ => Ok(()),
    }
}

#[tactic(auto, using(crate::proofs::Gathering::in_lists))]
fn mutexes_of(alloc: Global, items: &[Item]) -> Result<Vec<Ident>, NoMemory>
    ensures { IfOk result (λ names. names.items ≡ flat_map mutexes_in items.now) }
{
    let mut names = Vec::new(alloc);
    for item in items {
        add_mutexes(alloc, item, &mut names)?;
    }
    Ok(names)
}

#[tactic(auto, unfolding(crate::specs::Results::function_of))]
fn add_start(alloc: Global, thread: &ThreadUse<'_>, names: &mut Vec<Ident>) -> Result<(), NoMemory>
    ensures { OnOk result (names.new.items ≡ names.old.items ++ filter_map function_of (thread.now ∷ [])) }
{
    match thread.function {
        Some(function) => add_name(alloc, function, names),
        None => Ok(()),
    }
}

#[tactic(auto, using(crate::proofs::Gathering::in_lists))]
fn starts_of(alloc: Global, uses: &[ThreadUse<'_>]) -> Result<Vec<Ident>, NoMemory>
    ensures { IfOk result (λ names. names.items ≡ filter_map function_of uses.now) }
{
    let mut names = Vec::new(alloc);
    for thread in uses {
        add_start(alloc, thread, &mut names)?;
    }
    Ok(names)
}

/// What a program declares in which this is noted.
#[tactic(auto, using(crate::proofs::Noting::in_results))]
pub fn declared_of(
    alloc: Global,
    side: Side,
    tree: &Tree,
    notes: &Notes<'_>,
) -> Result<Declared, NoMemory>
    requires { notes.now ≡ all_noted no_notes (notes_of side tree.now) }
    ensures { IfOk result (λ declared. declared ≡ declared_of side tree.now) }
{
    let items = tree.items.items();
    let cells = cells_of(alloc, items)?;
    let mutexes = mutexes_of(alloc, items)?;
    let starts = starts_of(alloc, notes.uses())?;
    Ok(Declared {
        cells: List::new(cells),
        mutexes: List::new(mutexes),
        starts: List::new(starts),
        asserts: notes.asserts(),
    })
}

impl Declared {
    /// The same with the program that declares it.
    pub fn in_program(self, side: Side, tree: Tree) -> Checked
        ensures { result ≡ in_program side tree self }
    {
        let Declared {
            cells,
            mutexes,
            starts,
            asserts,
        } = self;
        Checked {
            side,
            tree,
            cells,
            mutexes,
            starts,
            asserts,
        }
    }
}
