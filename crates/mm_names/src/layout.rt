//! The cells of global variables.
ghost use Rattle.std.specs.Prelude.{◌≡◌, ◌++◌, ◌∷◌, [], ◌+◌, ◌≤◌, IfOk, OnOk, min, sum_by, fold, nat_lt};
ghost use Rattle.std.specs.List.{flat_map};
ghost use Rattle.std.specs.Map.{lookup};
ghost use Rattle.std.specs.Str.{bytes_eq};
ghost use Rattle.std.specs.Option.{option_copied};
ghost use Rattle.indexmap.specs.IndexMap.{insert_entry};
ghost use Rattle.mm_tree.specs.Trees.{node_of};
ghost use Rattle.mm_names.specs.Results.{globals_in, size_of, address_at, element_at, number_in, start_value, start_at, index_at, cell_at, cells_to, place_next, laid, nothing_laid, cells_of};

use indexmap::IndexMap;
use mm_goto::limits::MAX_CELLS;
use mm_goto::{Cell, Ident, NoMemory, Pure};
use mm_tree::{Expr, Item, Node};
use sqlite_items::Boxed;
use std::alloc::Global;
use std::marker::Model;

/// The cells of a global variable: the number of the first, and how many there are.
#[derive(Clone, Copy)]
pub struct Place {
    pub first: u32,
    pub size: u32,
}

/// The global variables that have cells.
#[derive(Drop)]
pub struct Places<'a> {
    map: IndexMap<&'a str, Place>,
}

impl<'a> Model for Places<'a> {
    ghost use Rattle.std.specs.Prelude.{map as map_list};
    ghost use Rattle.mm_names.specs.Results.{Places as Placed};

    ghost Value = { Placed };

    ghost view = { λ p. map_list (λ e. (e.0.now, e.1)) p.map.entries };
}

impl<'a> Places<'a> {
    fn new(alloc: Global) -> Places<'a>
        ensures { result ≡ [] }
    {
        Places {
            map: IndexMap::new(alloc),
        }
    }

    fn place_of(&self, name: &str) -> Option<Place>
        ensures { result ≡ lookup (bytes_eq name.now) self.now }
    {
        self.map.get(name).copied()
    }

    fn set(&mut self, name: &'a str, place: Place) -> Result<(), NoMemory>
        ensures { OnOk result (self.new ≡ insert_entry bytes_eq self.old name.entry.now place) }
    {
        self.map.insert(name, place)?;
        Ok(())
    }
}

/// The cells so far.
#[derive(Drop)]
pub struct Layout<'a> {
    places: Places<'a>,
    cells: Vec<Cell>,
}

impl<'a> Model for Layout<'a> {
    ghost use Rattle.mm_names.specs.Results.{Laid};
    ghost use Rattle.mm_goto.specs.contracts.pure.Pure as pure;
    ghost use Rattle.std.specs.Coded.{codes};

    ghost Value = { Laid };

    ghost coded = { Prim.hlevel (codes, pure.the_row.coded) };

    ghost view = { λ l. record { places = l.places; cells = l.cells.items } };
}

/// How many cells a global variable has.
fn size_of(global: &mm_tree::Global) -> u32
    ensures { result ≡ size_of global.now }
{
    match global.len {
        None => 1,
        Some(len) => len.cast_unsigned(),
    }
}

/// The number that the expression is.
fn number_in(e: &Expr) -> i32
    ensures { result ≡ number_in (node_of e.now) }
{
    match &e.node {
        Node::Number(n) => *n,
        _ => 0,
    }
}

fn address_at(place: Option<Place>) -> Pure
    ensures { result ≡ address_at place }
{
    match place {
        Some(place) => Pure::Addr(place.first),
        None => Pure::Const(0),
    }
}

fn element_at(alloc: Global, number: i32, place: Option<Place>) -> Result<Pure, NoMemory>
    ensures { IfOk result (λ e. e ≡ element_at number place) }
{
    match place {
        Some(place) => {
            let index = Boxed::new(alloc, Pure::Const(number))?;
            Ok(Pure::AddrElem {
                first: place.first,
                len: place.size,
                index,
            })
        }
        None => Ok(Pure::Const(0)),
    }
}

fn start_value(alloc: Global, places: &Places<'_>, e: &Expr) -> Result<Pure, NoMemory>
    ensures { IfOk result (λ value. value ≡ start_value places.now (node_of e.now)) }
{
    match &e.node {
        Node::Number(n) => Ok(Pure::Const(*n)),
        Node::AddrName(word) => Ok(address_at(places.place_of(word.name.text()))),
        Node::AddrIndex(word, index) => {
            let number = number_in(index.get());
            element_at(alloc, number, places.place_of(word.name.text()))
        }
        _ => Ok(Pure::Const(0)),
    }
}

fn start_at(alloc: Global, places: &Places<'_>, e: Option<&Expr>) -> Result<Pure, NoMemory>
    ensures { IfOk result (λ value. value ≡ start_at places.now (option_copied e.entry)) }
{
    match e {
        Some(e) => start_value(alloc, places, e),
        None => Ok(Pure::Const(0)),
    }
}

fn index_at(len: Option<i32>, k: u32) -> Option<u32>
    ensures { result ≡ index_at len k }
{
    match len {
        Some(_) => Some(k),
        None => None,
    }
}

fn cell_at(
    alloc: Global,
    places: &Places<'_>,
    global: &mm_tree::Global,
    k: u32,
) -> Result<Cell, NoMemory>
    ensures { IfOk result (λ cell. cell ≡ cell_at places.now global.now k) }
{
    let name = Ident::copy_of(alloc, global.name.text())?;
    let init = start_at(alloc, places, global.init.items().get(k as usize))?;
    Ok(Cell {
        name,
        index: index_at(global.len, k),
        pointer: global.pointer,
        init,
    })
}

#[tactic(auto, using(crate::proofs::Gathering::in_cells))]
fn add_cells(
    alloc: Global,
    places: &Places<'_>,
    global: &mm_tree::Global,
    size: u32,
    cells: &mut Vec<Cell>,
) -> Result<(), NoMemory>
    ensures { OnOk result (cells.new.items ≡ cells.old.items ++ cells_to places.now global.now size) }
{
    for k in 0..size {
        cells.push(cell_at(alloc, places, global, k)?)?;
    }
    Ok(())
}

impl<'a> Layout<'a> {
    /// Gives a variable its cells.
    #[tactic(auto, unfolding(crate::specs::Results::laid))]
    fn lay(&mut self, alloc: Global, global: &'a mm_tree::Global) -> Result<(), NoMemory>
        ensures { OnOk result (self.new ≡ laid self.old global.now) }
    {
        let first = match u32::try_from(self.cells.len()) {
            Ok(first) => first,
            Err(_) => return Err(NoMemory),
        };
        let size = size_of(global);
        self.places.set(global.name.text(), Place { first, size })?;
        add_cells(alloc, &self.places, global, size, &mut self.cells)
    }
}

fn lay_globals<'a>(
    alloc: Global,
    layout: &mut Layout<'a>,
    globals: &'a [mm_tree::Global],
) -> Result<(), NoMemory>
    ensures { OnOk result (layout.new ≡ fold laid layout.old globals.now) }
{
    for global in globals {
        layout.lay(alloc, global)?;
    }
    Ok(())
}

fn lay_item<'a>(alloc: Global, layout: &mut Layout<'a>, item: &'a Item) -> Result<(), NoMemory>
    ensures { OnOk result (layout.new ≡ fold laid layout.old (globals_in item.now)) }
{
    match item {
        Item::Globals(globals) => lay_globals(alloc, layout, globals.items()),
        _ => Ok(()),
    }
}

#[tactic(auto, using(crate::proofs::Gathering::in_items))]
fn lay_items<'a>(alloc: Global, layout: &mut Layout<'a>, items: &'a [Item]) -> Result<(), NoMemory>
    ensures { OnOk result (layout.new ≡ fold laid layout.old (flat_map globals_in items.now)) }
{
    for item in items {
        lay_item(alloc, layout, item)?;
    }
    Ok(())
}

// One more than a program may have where there are more.
fn add_size(total: u32, size: u32) -> u32
    ensures { result ≡ min (total + size) 65537 }
{
    total.saturating_add(size).min(65_537)
}

fn count_globals(total: u32, globals: &[mm_tree::Global]) -> u32
    requires { total ≤ 65537 }
    ensures { result ≡ min (total + sum_by size_of globals.now) 65537 }
{
    let mut total = total;
    for global in globals {
        total = add_size(total, size_of(global));
    }
    total
}

fn count_item(total: u32, item: &Item) -> u32
    requires { total ≤ 65537 }
    ensures { result ≡ min (total + sum_by size_of (globals_in item.now)) 65537 }
{
    match item {
        Item::Globals(globals) => count_globals(total, globals.items()),
        _ => total,
    }
}

fn count_cells(items: &[Item]) -> u32
    ensures { result ≡ min (sum_by size_of (flat_map globals_in items.now)) 65537 }
{
    let mut total = 0;
    for item in items {
        total = count_item(total, item);
    }
    total
}

/// The cells of a program, or none where there are too many.
#[tactic(auto, unfolding(crate::specs::Results::cells_of))]
pub fn cells_of(alloc: Global, items: &[Item]) -> Result<Vec<Cell>, NoMemory>
    ensures { IfOk result (λ cells. cells.items ≡ cells_of (flat_map globals_in items.now)) }
{
    let mut layout = Layout {
        places: Places::new(alloc),
        cells: Vec::new(alloc),
    };
    if count_cells(items) as usize <= MAX_CELLS {
        lay_items(alloc, &mut layout, items)?;
    }
    Ok(layout.cells)
}
