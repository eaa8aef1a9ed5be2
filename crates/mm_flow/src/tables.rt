//! What the names of a text speak of, found without a search.
ghost use Rattle.std.specs.Prelude.{◌≡◌, None, Some, position, length, IfNone, IfOk, IfSome};
ghost use Rattle.mm_flow.specs.Expressions.{the_spot};
ghost use Rattle.mm_flow.specs.Scopes.{index_of, spot_of};
ghost use Rattle.mm_flow.specs.Statements.{is_function};
ghost use Rattle.mm_flow.specs.reading.Finding.{at_place};

use crate::names::{Cells, Parts, Spot, Started};
use crate::places::{Places, function_places, name_places, spot_places};
use mm_goto::{Ident, NoMemory};
use mm_tree::{Item, Side};
use std::alloc::Global;
use std::marker::Model;

/// The labels of a body's text.
#[derive(Drop)]
pub struct Labels<'a> {
    names: &'a [Ident],
    places: Places<'a>,
}

impl<'a> Model for Labels<'a> {
    ghost use Rattle.std.specs.Prelude.{List};
    ghost use Rattle.mm_goto.specs.declared.ident.Ident.{Ident as AnyIdent};
    ghost use Rattle.mm_flow.specs.reading.Finding.{ArePlaced, is_called};

    ghost Value = { List AnyIdent };

    ghost view = { λ l. l.names.now };

    ghost invariant = { λ l. ArePlaced is_called l.places l.names.now };
}

impl<'a> Labels<'a> {
    pub fn new(alloc: Global, names: &'a [Ident]) -> Result<Labels<'a>, NoMemory>
        ensures { IfOk result (λ labels. labels ≡ names.now) }
    {
        let places = name_places(alloc, names)?;
        Ok(Labels { names, places })
    }

    /// Their names, in the order of the text.
    pub fn names(&self) -> &'a [Ident]
        ensures { result.now ≡ self.now }
    {
        self.names
    }

    /// Where a name stands among them.
    pub fn place_of(&self, x: &Ident) -> Option<usize>
        ensures { result ≡ index_of self.now x.now }
    {
        self.places.place_of(x.text())
    }
}

/// What the statements of a program speak of.
#[derive(Drop)]
pub struct Tables<'a> {
    parts: &'a Parts,
    spots: Places<'a>,
    mutexes: Places<'a>,
}

impl<'a> Model for Tables<'a> {
    ghost use Rattle.mm_flow.specs.declared.names.Parts.{Parts as AllParts};
    ghost use Rattle.mm_flow.specs.reading.Finding.{ArePlaced, is_called, spot_is_called};

    ghost Value = { AllParts };

    ghost view = { λ t. t.parts.now };

    ghost invariant = { λ t. ArePlaced spot_is_called t.spots t.parts.now.spots × ArePlaced is_called t.mutexes t.parts.now.mutexes };
}

fn spot_at<'a>(spots: &'a [Spot], place: Option<usize>) -> Option<&'a Spot>
    ensures some { IfSome result (λ s. at_place spots.now place ≡ Some s.now) }
    ensures none { IfNone result (at_place spots.now place ≡ None) }
{
    match place {
        Some(i) => spots.get(i),
        None => None,
    }
}

impl<'a> Tables<'a> {
    pub fn new(alloc: Global, parts: &'a Parts) -> Result<Tables<'a>, NoMemory>
        ensures { IfOk result (λ tables. tables ≡ parts.now) }
    {
        let spots = spot_places(alloc, parts.spots.items())?;
        let mutexes = name_places(alloc, parts.mutexes.items())?;
        Ok(Tables {
            parts,
            spots,
            mutexes,
        })
    }

    pub fn side(&self) -> Side
        ensures { result ≡ self.now.side }
    {
        self.parts.side
    }

    /// The creates in the text of `main`, in its order.
    pub fn starts(&self) -> &[Started]
        ensures { result.now ≡ self.now.starts }
    {
        self.parts.starts.items()
    }

    /// For each item, how many assertions stand in those before it.
    pub fn asserts(&self) -> &[u32]
        ensures { result.now ≡ self.now.asserts }
    {
        self.parts.asserts.items()
    }

    /// How many mutexes there are.
    pub fn mutexes(&self) -> usize
        ensures { result ≡ length self.now.mutexes }
    {
        self.parts.mutexes.items().len()
    }

    fn spot(&self, x: &Ident) -> Option<&Spot>
        ensures some { IfSome result (λ s. spot_of self.now.spots x.now ≡ Some s.now) }
        ensures none { IfNone result (spot_of self.now.spots x.now ≡ None) }
    {
        spot_at(self.parts.spots.items(), self.spots.place_of(x.text()))
    }

    /// The cells of the global of a name, and none from the first on where there is no such global: such a name is refused before.
    pub fn cells(&self, x: &Ident) -> Cells
        ensures first { result.first ≡ (the_spot (spot_of self.now.spots x.now)).first }
        ensures len { result.len ≡ (the_spot (spot_of self.now.spots x.now)).len }
    {
        match self.spot(x) {
            Some(spot) => Cells {
                first: spot.first,
                len: spot.len,
            },
            None => Cells { first: 0, len: 0 },
        }
    }

    /// Where a mutex stands among the others.
    pub fn mutex(&self, x: &Ident) -> Option<usize>
        ensures { result ≡ index_of self.now.mutexes x.now }
    {
        self.mutexes.place_of(x.text())
    }
}

/// The items of a text, with where its functions stand among them.
#[derive(Drop)]
pub struct Functions<'a> {
    items: &'a [Item],
    places: Places<'a>,
}

impl<'a> Model for Functions<'a> {
    ghost use Rattle.std.specs.Prelude.{List};
    ghost use Rattle.std.specs.Coded.{codes};
    ghost use Rattle.mm_tree.specs.declared.item.Item.{Item as AnyItem};
    ghost use Rattle.mm_tree.specs.contracts.expr.Expr as expr;
    ghost use Rattle.mm_tree.specs.contracts.stmt.Stmt as stmt;
    ghost use Rattle.mm_flow.specs.Statements.{is_function};
    ghost use Rattle.mm_flow.specs.reading.Finding.{ArePlaced};

    ghost Value = { List AnyItem };

    ghost coded = { Prim.hlevel (codes, expr.the_row.coded, stmt.the_row.coded) };

    ghost view = { λ f. f.items.now };

    ghost invariant = { λ f. ArePlaced is_function f.places f.items.now };
}

impl<'a> Functions<'a> {
    pub fn new(alloc: Global, items: &'a [Item]) -> Result<Functions<'a>, NoMemory>
        ensures { IfOk result (λ functions. functions ≡ items.now) }
    {
        let places = function_places(alloc, items)?;
        Ok(Functions { items, places })
    }

    pub fn items(&self) -> &'a [Item]
        ensures { result.now ≡ self.now }
    {
        self.items
    }

    /// Where the function of a name stands among the items.
    pub fn place_of(&self, f: &str) -> Option<usize>
        ensures { result ≡ position (is_function f.now) self.now }
    {
        self.places.place_of(f)
    }
}
