ghost use Rattle.std.specs.Prelude.{◌≡◌, ◌++◌, ◌∷◌, ◌-◌, [], true, is_some, OnOk, OnErr, length, take};
ghost use Rattle.std.specs.Map.{lookup, set_value};
ghost use Rattle.std.specs.Str.{bytes_eq};
ghost use Rattle.indexmap.specs.IndexMap.{insert_entry};
ghost use Rattle.mm_flow.specs.Scopes.{local_of, named};
ghost use Rattle.mm_flow.specs.reading.Finding.{present};

use indexmap::IndexMap;
use mm_goto::{Ident, NoMemory};
use std::alloc::Global;
use std::marker::Model;

/// For each name that was ever bound, the local that it stands for now.
#[derive(Drop)]
pub struct Present {
    map: IndexMap<String, Option<u32>>,
}

impl Model for Present {
    ghost use Rattle.std.specs.Prelude.{string_bytes, map as map_list};
    ghost use Rattle.mm_flow.specs.reading.Finding.{Presence};

    ghost Value = { Presence };

    ghost view = { λ p. map_list (λ e. (string_bytes e.0, e.1)) p.map.entries };
}

impl Present {
    fn new(alloc: Global) -> Present
        ensures { result ≡ [] }
    {
        Present {
            map: IndexMap::new(alloc),
        }
    }

    fn local(&self, name: &str) -> Option<u32>
        ensures { result ≡ present self.now name.now }
    {
        self.map.get(name).copied().flatten()
    }

    fn put(&mut self, alloc: Global, name: &str, local: Option<u32>) -> Result<(), NoMemory>
        ensures put { OnOk result (self.new ≡ insert_entry bytes_eq self.old name.now local) }
        ensures same { OnErr result (self.new ≡ self.old) }
    {
        let name = String::from_str(alloc, name)?;
        self.map.insert(name, local)?;
        Ok(())
    }

    fn set(&mut self, name: &str, local: Option<u32>)
        ensures { self.new ≡ set_value (bytes_eq name.now) self.old local }
    {
        if let Some(place) = self.map.get_mut(name) {
            *place = local;
        }
    }
}

/// A name that is bound, its local, and the local that the name stood for before.
#[derive(Drop)]
pub struct Entry {
    name: Ident,
    number: u32,
    hidden: Option<u32>,
}

/// The names that are known, the newest last. What a name stands for now is found without a search.
#[derive(Drop)]
pub struct Locals {
    entries: Vec<Entry>,
    present: Present,
}

impl Model for Locals {
    ghost use Rattle.std.specs.Prelude.{List};
    ghost use Rattle.mm_flow.specs.declared.names.Named.{Named};
    ghost use Rattle.mm_flow.specs.reading.Finding.{entry_names, IsPresent};

    ghost Value = { List Named };

    ghost view = { λ l. entry_names l.entries.items };

    ghost invariant = { λ l. IsPresent l.present l.entries.items };
}

impl Locals {
    pub fn new(alloc: Global) -> Locals
        ensures { result ≡ [] }
    {
        Locals {
            entries: Vec::new(alloc),
            present: Present::new(alloc),
        }
    }

    /// The local of a name: the innermost where there are several.
    pub fn local(&self, x: &Ident) -> Option<u32>
        ensures { result ≡ local_of self.now x.now }
    {
        self.present.local(x.text())
    }

    /// How many there are.
    pub fn len(&self) -> usize
        ensures { result ≡ length self.now }
    {
        self.entries.len()
    }

    /// One more name.
    pub fn push(&mut self, alloc: Global, x: &Ident, number: u32) -> Result<(), NoMemory>
        ensures { OnOk result (self.new ≡ self.old ++ named x.now number ∷ []) }
    {
        let hidden = self.present.local(x.text());
        self.present.put(alloc, x.text(), hidden)?;
        let name = Ident::copy_of(alloc, x.text())?;
        self.entries.push(Entry {
            name,
            number,
            hidden,
        })?;
        self.present.set(x.text(), Some(number));
        Ok(())
    }

    /// The newest is not known any more.
    fn pop(&mut self)
        ensures { self.new ≡ take (length self.old - 1) self.old }
    {
        if let Some(entry) = self.entries.pop() {
            self.present.set(entry.name.text(), entry.hidden);
        }
    }

    /// The first, so many, alone are known.
    pub fn truncate(&mut self, len: usize)
        ensures { self.new ≡ take len self.old }
    {
        for _behind in len..self.entries.len() {
            self.pop();
        }
    }
}
