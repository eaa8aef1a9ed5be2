//! The globals of the source that keep their names, and the shared array.
ghost use Rattle.std.specs.Prelude.{◌≤◌, All, ◌≡◌, ◌+◌, ◌++◌, ◌∷◌, [], map, if◌then◌else◌, IfOk, OnOk};
ghost use Rattle.mm_goto.specs.Locals.{local_bound};
ghost use Rattle.mm_words.specs.Words.{num};
ghost use Rattle.mm_templates.specs.Homes.{has_moved};
ghost use Rattle.mm_instr.specs.Woven as specs;

use crate::asked::{has_moved_cells, next};
use mm_goto::{Cell, NoMemory, Program, Shape, eval};
use mm_templates::has_moved;
use mm_tree::{Expr, Item};
use mm_words::{add, array_item, natural, number, variable_item};
use sqlite_items::Boxed;
use std::alloc::Global;

// What the cell has at the start.
fn start_value(alloc: Global, cell: &Cell) -> Result<Boxed<Expr>, NoMemory>
    requires { local_bound cell.now.init ≤ 0 }
    ensures { IfOk result (λ e. e ≡ specs.start_value cell.now) }
{
    number(alloc, eval(&cell.init, &[]))
}

// Whether a cell stands behind the first of its array, by its index.
fn is_behind(index: Option<u32>) -> bool
    ensures { result ≡ specs.is_behind index }
{
    match index {
        None => false,
        Some(k) => k > 0,
    }
}

// The values of the elements that follow an array's first.
fn put_further(alloc: Global, cells: &[Cell], out: &mut Vec<Expr>) -> Result<(), NoMemory>
    requires { All (λ cell. local_bound cell.init ≤ 0) cells.now }
    ensures { OnOk result (out.new.items ≡ out.old.items ++ map specs.start_value (specs.further cells.now)) }
{
    let mut rest = cells;
    while let [cell, behind @ ..] = rest {
        if !is_behind(cell.index) {
            return Ok(());
        }
        add(out, start_value(alloc, cell)?)?;
        rest = behind;
    }
    Ok(())
}

// An array of these values. It has far fewer than the greatest int, or there would be no memory for them.
fn filled(alloc: Global, name: &str, values: Vec<Expr>) -> Result<Boxed<Item>, NoMemory>
    ensures { IfOk result (λ item. item ≡ specs.filled name.now values.items) }
{
    let len = values.as_slice().len();
    if len > i32::MAX as usize {
        return Err(NoMemory);
    }
    array_item(alloc, name, len as u32, values)
}

fn array(alloc: Global, cell: &Cell, behind: &[Cell]) -> Result<Boxed<Item>, NoMemory>
    requires start { local_bound cell.now.init ≤ 0 }
    requires starts { All (λ cell. local_bound cell.init ≤ 0) behind.now }
    ensures { IfOk result (λ item. item ≡ specs.filled cell.now.name (map specs.start_value (cell.now ∷ specs.further behind.now))) }
{
    let mut values = Vec::new(alloc);
    add(&mut values, start_value(alloc, cell)?)?;
    put_further(alloc, behind, &mut values)?;
    filled(alloc, cell.name.text(), values)
}

// A variable, or at its first element an array.
fn put_declared(
    alloc: Global,
    cell: &Cell,
    behind: &[Cell],
    out: &mut Vec<Item>,
) -> Result<(), NoMemory>
    requires start { local_bound cell.now.init ≤ 0 }
    requires starts { All (λ cell. local_bound cell.init ≤ 0) behind.now }
    ensures { OnOk result (out.new.items ≡ out.old.items ++ specs.declared cell.now behind.now cell.now.index) }
{
    match cell.index {
        None => {
            let value = start_value(alloc, cell)?;
            add(out, variable_item(alloc, cell.name.text(), value)?)
        }
        Some(0) => add(out, array(alloc, cell, behind)?),
        Some(_) => Ok(()),
    }
}

/// The globals that keep their names.
pub fn put_variables(
    alloc: Global,
    moved: &[bool],
    cells: &[Cell],
    out: &mut Vec<Item>,
) -> Result<(), NoMemory>
    requires { All (λ cell. local_bound cell.init ≤ 0) cells.now }
    ensures { OnOk result (out.new.items ≡ out.old.items ++ specs.variables moved.now 0 cells.now) }
{
    let mut c = 0;
    let mut rest = cells;
    while let [cell, behind @ ..] = rest {
        if !has_moved(moved, c) {
            put_declared(alloc, cell, behind, out)?;
        }
        c = next(c)?;
        rest = behind;
    }
    Ok(())
}

// What the shared array has at the start for the cell of that number.
fn moved_value(alloc: Global, moved: &[bool], c: u32, cell: &Cell) -> Result<Boxed<Expr>, NoMemory>
    requires { local_bound cell.now.init ≤ 0 }
    ensures { IfOk result (λ e. e ≡ (if has_moved moved.now c then specs.start_value cell.now else num 0)) }
{
    if has_moved(moved, c) {
        start_value(alloc, cell)
    } else {
        natural(alloc, 0)
    }
}

fn start_values(alloc: Global, moved: &[bool], cells: &[Cell]) -> Result<Vec<Expr>, NoMemory>
    requires { All (λ cell. local_bound cell.init ≤ 0) cells.now }
    ensures { IfOk result (λ values. values.items ≡ specs.start_values moved.now 0 cells.now) }
{
    let mut values = Vec::new(alloc);
    let mut c = 0;
    let mut rest = cells;
    while let [cell, behind @ ..] = rest {
        add(&mut values, moved_value(alloc, moved, c, cell)?)?;
        c = next(c)?;
        rest = behind;
    }
    Ok(values)
}

/// The shared array, where a cell has moved or a store is buffered.
pub fn put_memory(
    alloc: Global,
    program: &Program,
    shape: &Shape,
    has_buffers: bool,
    out: &mut Vec<Item>,
) -> Result<(), NoMemory>
    requires buffers { has_buffers ≡ specs.has_buffers shape.now }
    requires starts { All (λ cell. local_bound cell.init ≤ 0) program.now.cells }
    ensures { OnOk result (out.new.items ≡ out.old.items ++ specs.memory program.now shape.now) }
{
    if has_moved_cells(shape) || has_buffers {
        let values = start_values(alloc, shape.moved.items(), program.cells())?;
        add(out, filled(alloc, "wm_mem", values)?)?;
    }
    Ok(())
}
