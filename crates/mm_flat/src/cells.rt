//! The cells of a program.
ghost use Rattle.std.specs.Prelude.{◌≡◌, ◌+◌, ◌-◌, ◌∷◌, ◌++◌, [], drop, Some, None, IfOk, OnOk};
ghost use Rattle.mm_flow.specs.Programs.{cells_of, cells_of_length, elements, first_start, globals_in, globals_of, natural, start_index, start_value};
ghost use Rattle.mm_tree.specs.Trees.{node_of};

use crate::gather::globals_of;
use mm_flow::tables::Tables;
use mm_flow::words::{address, constant, element};
use mm_goto::{Cell, Ident, NoMemory, Pure};
use mm_tree::{Expr, Item, Node};
use sqlite_items::Boxed;
use std::alloc::Global;

/// The constant index of an address in a start value.
fn start_index(alloc: Global, e: &Expr) -> Result<Boxed<Pure>, NoMemory>
    ensures { IfOk result (λ p. p ≡ start_index (node_of e.now)) }
{
    match &e.node {
        Node::Number(z) => constant(alloc, *z),
        Node::Null
        | Node::Name(_)
        | Node::Index(_, _)
        | Node::Deref(_)
        | Node::AddrName(_)
        | Node::AddrIndex(_, _)
        | Node::Un(_, _)
        | Node::Bin(_, _, _)
        | Node::Cond(_, _, _) => constant(alloc, 0),
    }
}

/// The start value that an expression of an initialiser says.
fn start_value(alloc: Global, parts: &Tables<'_>, e: &Expr) -> Result<Boxed<Pure>, NoMemory>
    ensures { IfOk result (λ p. p ≡ start_value parts.now.spots e.now) }
{
    match &e.node {
        Node::Number(z) => constant(alloc, *z),
        Node::AddrName(x) => address(alloc, parts.cells(&x.name).first),
        Node::AddrIndex(x, i) => {
            let cells = parts.cells(&x.name);
            let index = start_index(alloc, i.get())?;
            element(alloc, cells.first, cells.len, index)
        }
        Node::Null
        | Node::Name(_)
        | Node::Index(_, _)
        | Node::Deref(_)
        | Node::Un(_, _)
        | Node::Bin(_, _, _)
        | Node::Cond(_, _, _) => constant(alloc, 0),
    }
}

/// One more cell.
fn add_cell(
    alloc: Global,
    out: &mut Vec<Cell>,
    global: &mm_tree::Global,
    index: Option<u32>,
    init: Boxed<Pure>,
) -> Result<(), NoMemory>
    ensures { OnOk result (out.new.items ≡ out.old.items ++ record { name = global.now.name; index = index; pointer = global.now.pointer; init = init } ∷ []) }
{
    let name = Ident::copy_of(alloc, global.name.text())?;
    out.push(Cell {
        name,
        index,
        pointer: global.pointer,
        init: init.into_inner(),
    })?;
    Ok(())
}

/// The start value at an index of an initialiser, and 0 behind its end.
fn start_at(
    alloc: Global,
    parts: &Tables<'_>,
    init: &[Expr],
    i: usize,
) -> Result<Boxed<Pure>, NoMemory>
    ensures { IfOk result (λ p. p ≡ first_start parts.now.spots (drop i init.now)) }
{
    match init.get(i) {
        Some(e) => start_value(alloc, parts, e),
        None => constant(alloc, 0),
    }
}

/// The elements of an array.
fn add_elements(
    alloc: Global,
    out: &mut Vec<Cell>,
    parts: &Tables<'_>,
    global: &mm_tree::Global,
    count: u32,
) -> Result<(), NoMemory>
    ensures { OnOk result (out.new.items ≡ out.old.items ++ elements parts.now.spots global.now 0 count global.now.init) }
{
    for i in 0..count {
        let init = start_at(alloc, parts, global.init.items(), i as usize)?;
        add_cell(alloc, out, global, Some(i), init)?;
    }
    Ok(())
}

/// The cells of a global.
fn add_global(
    alloc: Global,
    out: &mut Vec<Cell>,
    parts: &Tables<'_>,
    global: &mm_tree::Global,
) -> Result<(), NoMemory>
    ensures { OnOk result (out.new.items ≡ out.old.items ++ cells_of_length parts.now.spots global.now global.now.len) }
{
    match global.len {
        Some(len) => {
            let count = u32::try_from(len).unwrap_or(0);
            add_elements(alloc, out, parts, global, count)
        }
        None => {
            let init = start_at(alloc, parts, global.init.items(), 0)?;
            add_cell(alloc, out, global, None, init)
        }
    }
}

fn add_globals(
    alloc: Global,
    out: &mut Vec<Cell>,
    parts: &Tables<'_>,
    globals: &[mm_tree::Global],
) -> Result<(), NoMemory>
    ensures { OnOk result (out.new.items ≡ out.old.items ++ cells_of parts.now.spots globals.now) }
{
    for global in globals {
        add_global(alloc, out, parts, global)?;
    }
    Ok(())
}

fn add_globals_of(
    alloc: Global,
    out: &mut Vec<Cell>,
    parts: &Tables<'_>,
    item: &Item,
) -> Result<(), NoMemory>
    ensures { OnOk result (out.new.items ≡ out.old.items ++ cells_of parts.now.spots (globals_of item.now)) }
{
    match globals_of(item) {
        Some(globals) => add_globals(alloc, out, parts, globals),
        None => Ok(()),
    }
}

/// The cells of the globals of a text.
pub fn cells_of(alloc: Global, parts: &Tables<'_>, items: &[Item]) -> Result<Vec<Cell>, NoMemory>
    ensures { IfOk result (λ out. out.items ≡ cells_of parts.now.spots (globals_in items.now)) }
{
    let mut out = Vec::new(alloc);
    for item in items {
        add_globals_of(alloc, &mut out, parts, item)?;
    }
    Ok(out)
}
