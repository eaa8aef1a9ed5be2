//! Where names stand first, found without a search.
ghost use Rattle.std.specs.Prelude.{◌≡◌, [], IfNone, IfOk, IfSome, OnOk, false};
ghost use Rattle.std.specs.Map.{lookup};
ghost use Rattle.std.specs.Str.{bytes_eq};
ghost use Rattle.mm_goto.specs.declared.ident.Ident.{Ident as AnyIdent};
ghost use Rattle.mm_flow.specs.Statements.{is_function};
ghost use Rattle.mm_flow.specs.reading.Finding.{ArePlaced, is_called, noted, spot_is_called};

use crate::names::Spot;
use indexmap::IndexMap;
use mm_goto::{Ident, NoMemory};
use mm_tree::Item;
use std::alloc::Global;
use std::marker::Model;

/// Names, each with the number of the first place where it stands.
#[derive(Drop)]
pub struct Places<'a> {
    map: IndexMap<&'a str, usize>,
}

impl<'a> Model for Places<'a> {
    ghost use Rattle.std.specs.Prelude.{map as map_list};
    ghost use Rattle.mm_flow.specs.reading.Finding.{Placing};

    ghost Value = { Placing };

    ghost view = { λ p. map_list (λ e. (e.0.now, e.1)) p.map.entries };
}

impl<'a> Places<'a> {
    fn new(alloc: Global) -> Places<'a>
        ensures { result ≡ [] }
    {
        Places {
            map: IndexMap::new(alloc),
        }
    }

    /// Where the name stands first.
    pub fn place_of(&self, name: &str) -> Option<usize>
        ensures { result ≡ lookup (bytes_eq name.now) self.now }
    {
        self.map.get(name).copied()
    }

    fn note(&mut self, name: &'a str, place: usize) -> Result<(), NoMemory>
        ensures { OnOk result (self.new ≡ noted self.old name.entry.now place) }
    {
        if self.place_of(name).is_none() {
            self.map.insert(name, place)?;
        }
        Ok(())
    }
}

/// Where each name stands among these.
pub fn name_places<'a>(alloc: Global, names: &'a [Ident]) -> Result<Places<'a>, NoMemory>
    ensures { IfOk result (λ places. ArePlaced is_called places names.now) }
{
    let mut places = Places::new(alloc);
    for (i, name) in names.iter().enumerate() {
        places.note(name.text(), i)?;
    }
    Ok(places)
}

/// Where each global stands among these.
pub fn spot_places<'a>(alloc: Global, spots: &'a [Spot]) -> Result<Places<'a>, NoMemory>
    ensures { IfOk result (λ places. ArePlaced spot_is_called places spots.now) }
{
    let mut places = Places::new(alloc);
    for (i, spot) in spots.iter().enumerate() {
        places.note(spot.name.text(), i)?;
    }
    Ok(places)
}

fn function_name<'a>(item: &'a Item) -> Option<&'a str>
    ensures some { (f : AnyIdent) → IfSome result (λ name. is_function f item.now ≡ bytes_eq name.now f) }
    ensures none { (f : AnyIdent) → IfNone result (is_function f item.now ≡ false) }
{
    match item {
        Item::Function { name, .. } => Some(name.text()),
        Item::Globals(_) | Item::Mutexes(_) | Item::Threads(_) | Item::InputDecl(_, _) => None,
    }
}

/// Where each function stands among the items.
pub fn function_places<'a>(alloc: Global, items: &'a [Item]) -> Result<Places<'a>, NoMemory>
    ensures { IfOk result (λ places. ArePlaced is_function places items.now) }
{
    let mut places = Places::new(alloc);
    for (i, item) in items.iter().enumerate() {
        if let Some(name) = function_name(item) {
            places.note(name, i)?;
        }
    }
    Ok(places)
}
