ghost use Rattle.std.specs.Prelude.{◌≡◌, ◌↔◌, ℕ, ◌<◌, ◌≤◌, length, IsTrue, IfOk, IsSomeAnd, slice_get};
ghost use Rattle.mm_bits.specs.Words.{Has};
ghost use Rattle.mm_goto.specs.Shapes.{AreOfOneName};
ghost use Rattle.mm_delay.specs.reading.Sets.{Raised};

use mm_bits::Numbers;
use mm_goto::{Cell, Ident, NoMemory};
use std::alloc::Global;

/// Whether the names are the same.
fn are_same(a: &Ident, b: &Ident) -> bool
    ensures { IsTrue result ↔ (a.now ≡ b.now) }
{
    a.text() == b.text()
}

/// Whether the cell has the name, and the set has the cell.
fn is_so_named(cell: &Cell, d: u32, name: &Ident, set: &Numbers) -> bool
    requires { d < 1024 }
    ensures { IsTrue result ↔ ((name.now ≡ cell.now.name) × Has set.now.words d) }
{
    are_same(name, &cell.name) && set.has(d)
}

/// Whether the set has a cell of the name.
fn is_named(cells: &[Cell], name: &Ident, set: &Numbers) -> bool
    requires { length cells.now ≤ 1024 }
    ensures { IsTrue result ↔ ((d : ℕ) × IsSomeAnd (slice_get cells.now d) (λ y. name.now ≡ y.name) × Has set.now.words d) }
{
    'cells: for d in 0..cells.len() as u32 {
        if is_so_named(&cells[d as usize], d, name, set) {
            return true;
        }
    }
    false
}

/// For each cell, whether the set has it or another of its name: an array moves whole.
pub fn moved(alloc: Global, cells: &[Cell], set: &Numbers) -> Result<Vec<bool>, NoMemory>
    requires { length cells.now ≤ 1024 }
    ensures size { IfOk result (λ moved. length moved.items ≡ length cells.now) }
    ensures raised { IfOk result (λ moved. (c : ℕ) → Raised moved.items c ↔ ((d : ℕ) × IsSomeAnd (slice_get cells.now c) (λ x. IsSomeAnd (slice_get cells.now d) (λ y. x.name ≡ y.name)) × Has set.now.words d)) }
{
    let mut moved = Vec::new(alloc);
    'cells: for c in 0..cells.len() {
        moved.push(is_named(cells, &cells[c].name, set))?;
    }
    Ok(moved)
}
