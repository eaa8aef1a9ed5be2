ghost use Rattle.std.specs.Prelude.{◌≡◌, [], OnOk, OnErr};
ghost use Rattle.mm_scope.specs.Scopes.{meaning_in, with_name};

use indexmap::IndexMap;
use mm_goto::NoMemory;
use std::alloc::Global;
use std::marker::Model;

/// What a name stands for.
#[derive(Clone, Copy)]
pub enum Meaning {
    /// A global int.
    Shared,
    /// A local int or an int parameter.
    Int,
    Pointer,
    /// A global array of this length.
    Array(i32),
    Mutex,
    /// A global variable that holds a thread.
    SharedThread,
    /// A local variable that holds a thread.
    Thread,
    /// A function, by its number among the items.
    Function(usize),
    /// A function whose text is not yet read.
    Ahead(usize),
    /// A `nondet_` function.
    Input,
    /// The parameter of a thread's function.
    Handed,
    /// A local whose own initialiser is read.
    Unready,
    Label,
}

/// Names, each with what it stands for, in the order in which they are first seen.
#[derive(Drop)]
pub struct Table<'a> {
    map: IndexMap<&'a str, Meaning>,
}

impl<'a> Model for Table<'a> {
    ghost use Rattle.std.specs.Prelude.{map as map_list};
    ghost use Rattle.mm_scope.specs.Scopes.{Table as NameTable};

    ghost Value = { NameTable };

    ghost view = { λ t. map_list (λ e. (e.0.now, e.1)) t.map.entries };
}

impl<'a> Table<'a> {
    pub fn new(alloc: Global) -> Table<'a>
        ensures { result ≡ [] }
    {
        Table {
            map: IndexMap::new(alloc),
        }
    }

    pub fn meaning_of(&self, name: &str) -> Option<Meaning>
        ensures { result ≡ meaning_in self.now name.now }
    {
        self.map.get(name).copied()
    }

    /// Gives the name this meaning.
    pub fn set(&mut self, name: &'a str, meaning: Meaning) -> Result<(), NoMemory>
        ensures set { OnOk result (self.new ≡ with_name self.old name.entry.now meaning) }
        ensures same { OnErr result (self.new ≡ self.old) }
    {
        self.map.insert(name, meaning)?;
        Ok(())
    }
}
