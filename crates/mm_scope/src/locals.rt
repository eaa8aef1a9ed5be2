ghost use Rattle.std.specs.Prelude.{◌≡◌, ◌++◌, ◌∷◌, [], OnOk, length, take};
ghost use Rattle.mm_scope.specs.Scopes.{found, stands, named_as};

use crate::table::{Meaning, Table};
use mm_goto::{Ident, NoMemory};
use std::alloc::Global;
use std::marker::Model;

/// A local name.
#[derive(Drop)]
pub struct Entry<'a> {
    name: &'a Ident,
    meaning: Meaning,
}

impl<'a> Model for Entry<'a> {
    ghost use Rattle.mm_scope.specs.Scopes.{Named};

    ghost Value = { Named };

    ghost view = { λ e. record { name = e.name.now; meaning = e.meaning } };
}

/// The local names of all blocks that are open, the newest last. Most names that are looked for are none of them, and a table
/// of all that were ever added tells so without a search.
#[derive(Drop)]
pub struct Locals<'a> {
    entries: Vec<Entry<'a>>,
    seen: Table<'a>,
}

impl<'a> Model for Locals<'a> {
    ghost use Rattle.std.specs.Prelude.{List};
    ghost use Rattle.mm_scope.specs.Scopes.{Named, AreSeen};

    ghost Value = { List Named };

    ghost view = { λ l. l.entries.items };

    ghost invariant = { λ l. AreSeen l.seen l.entries.items };
}

impl<'a> Locals<'a> {
    pub fn new(alloc: Global) -> Locals<'a>
        ensures { result ≡ [] }
    {
        Locals {
            entries: Vec::new(alloc),
            seen: Table::new(alloc),
        }
    }

    pub fn meaning_of(&self, name: &Ident) -> Option<Meaning>
        ensures { result ≡ found self.now name.now }
    {
        if self.seen.meaning_of(name.text()).is_none() {
            return None;
        }
        let found = self
            .entries
            .iter()
            .rev()
            .find(|entry| entry.name.text() == name.text())?;
        Some(found.meaning)
    }

    /// Whether the name stands behind so many.
    pub fn stands(&self, from: usize, name: &Ident) -> bool
        ensures { result ≡ stands self.now from name.now }
    {
        if self.seen.meaning_of(name.text()).is_none() {
            return false;
        }
        self.entries
            .iter()
            .skip(from)
            .any(|entry| entry.name.text() == name.text())
    }

    pub fn add(&mut self, name: &'a Ident, meaning: Meaning) -> Result<(), NoMemory>
        ensures { OnOk result (self.new ≡ self.old ++ named_as name.now meaning ∷ []) }
    {
        self.seen.set(name.text(), meaning)?;
        self.entries.push(Entry { name, meaning })?;
        Ok(())
    }

    pub fn len(&self) -> usize
        ensures { result ≡ length self.now }
    {
        self.entries.len()
    }

    pub fn close(&mut self, len: usize)
        ensures { self.new ≡ take len self.old }
    {
        self.entries.truncate(len);
    }
}
