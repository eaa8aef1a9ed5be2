//! Where a cell lives: under its own name or in the shared array.
ghost use Rattle.std.specs.Prelude.{◌≡◌, IfOk};
ghost use Rattle.mm_templates.specs.Homes as specs;

use crate::expressions::{cell_number, printed};
use mm_goto::{Cell, Ident, NoMemory, Target};
use mm_tree::{Expr, Stmt};
use mm_words::{assigned, element, element_assigned, variable};
use sqlite_items::Boxed;
use std::alloc::Global;

// The name of a cell, or of its array.
fn cell_name(cells: &[Cell], c: u32) -> &str
    ensures { result.now ≡ specs.cell_name cells.now c }
{
    match cells.get(c as usize) {
        Some(cell) => cell.name.text(),
        None => "",
    }
}

/// Whether a cell has moved to the shared array.
pub fn has_moved(moved: &[bool], c: u32) -> bool
    ensures { result ≡ specs.has_moved moved.now c }
{
    moved.get(c as usize).copied().unwrap_or(false)
}

/// Whether a target lives in the shared array.
pub fn is_moved(moved: &[bool], target: &Target) -> bool
    ensures { result ≡ specs.is_moved moved.now target.now }
{
    match target {
        Target::Cell(c) => has_moved(moved, *c),
        Target::Elem { first, .. } => has_moved(moved, *first),
        Target::Deref(_) => true,
    }
}

fn read_by_name(alloc: Global, cells: &[Cell], target: &Target) -> Result<Boxed<Expr>, NoMemory>
    ensures { IfOk result (λ e. e ≡ specs.read_by_name cells.now target.now) }
{
    match target {
        Target::Cell(c) => variable(alloc, cell_name(cells, *c)),
        Target::Elem { first, index, .. } => {
            let index = printed(alloc, index)?;
            element(alloc, cell_name(cells, *first), index)
        }
        Target::Deref(_) => element(alloc, "wm_mem", cell_number(alloc, target)?),
    }
}

/// What a target is called.
pub fn read(
    alloc: Global,
    cells: &[Cell],
    moved: &[bool],
    target: &Target,
) -> Result<Boxed<Expr>, NoMemory>
    ensures { IfOk result (λ e. e ≡ specs.read cells.now moved.now target.now) }
{
    if is_moved(moved, target) {
        element(alloc, "wm_mem", cell_number(alloc, target)?)
    } else {
        read_by_name(alloc, cells, target)
    }
}

fn write_by_name(
    alloc: Global,
    cells: &[Cell],
    target: &Target,
    e: Boxed<Expr>,
) -> Result<Boxed<Stmt>, NoMemory>
    ensures { IfOk result (λ s. s ≡ specs.write_by_name cells.now target.now e) }
{
    match target {
        Target::Cell(c) => assigned(alloc, cell_name(cells, *c), e),
        Target::Elem { first, index, .. } => {
            let index = printed(alloc, index)?;
            element_assigned(alloc, cell_name(cells, *first), index, e)
        }
        Target::Deref(_) => element_assigned(alloc, "wm_mem", cell_number(alloc, target)?, e),
    }
}

/// The target becomes a value.
pub fn write(
    alloc: Global,
    cells: &[Cell],
    moved: &[bool],
    target: &Target,
    e: Boxed<Expr>,
) -> Result<Boxed<Stmt>, NoMemory>
    ensures { IfOk result (λ s. s ≡ specs.write cells.now moved.now target.now e) }
{
    if is_moved(moved, target) {
        element_assigned(alloc, "wm_mem", cell_number(alloc, target)?, e)
    } else {
        write_by_name(alloc, cells, target, e)
    }
}
