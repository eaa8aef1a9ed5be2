ghost use Rattle.std.specs.Prelude.{◌≡◌, ℕ, ◌+◌, ◌<◌, ◌^◌, ◌↔◌, ◌⊎◌, false, OnOk, IfOk};
ghost use Rattle.mm_goto.specs.PointsTo.{IsInRow};
ghost use Rattle.mm_points.specs.Sets.{Has};

use mm_goto::{NoMemory, Row};
use std::alloc::Global;
use std::marker::Model;

/// A set of cells: their numbers in order.
#[derive(Drop)]
pub struct CellSet {
    items: Vec<u32>,
}

impl Model for CellSet {
    ghost use Rattle.std.specs.Prelude.{ℕ, List};
    ghost use Rattle.std.specs.List.Sorted.{IsStrictlyIncreasing};

    ghost Value = { List ℕ };

    ghost view = { λ set. set.items.items };

    ghost invariant = { λ set. IsStrictlyIncreasing set.items.items };
}

impl CellSet {
    ghost use Rattle.std.specs.List.Sorted.{IsStrictlyIncreasing};

    /// No cell.
    pub fn empty(alloc: Global) -> CellSet
        ensures { (c : ℕ) → ¬ (Has result c) }
    {
        CellSet {
            items: Vec::new(alloc),
        }
    }

    /// The cells in order.
    pub fn items(&self) -> &[u32]
        ensures items { result.now ≡ self.now }
        ensures ordered { IsStrictlyIncreasing self.now }
    {
        self.items.as_slice()
    }

    /// The list of the cells in order.
    pub fn into_items(self) -> Vec<u32>
        ensures items { result.items ≡ self }
        ensures ordered { IsStrictlyIncreasing self }
    {
        self.items
    }

    /// Adds the cell. Whether it was new.
    pub fn add(&mut self, c: u32) -> Result<bool, NoMemory>
        ensures added { OnOk result ((m : ℕ) → Has self.new m ↔ (Has self.old m ⊎ (m ≡ c))) }
        ensures stays { IfOk result (λ grew. grew ≡ false → (m : ℕ) → Has self.new m → Has self.old m) }
    {
        match self.items.binary_search(&c) {
            Ok(_) => Ok(false),
            Err(place) => {
                self.items.insert(place, c)?;
                Ok(true)
            }
        }
    }

    /// Adds the cells. Whether any was new.
    pub fn join(&mut self, cells: &[u32]) -> Result<bool, NoMemory>
        ensures added { OnOk result ((m : ℕ) → Has self.new m ↔ (Has self.old m ⊎ Has cells.now m)) }
        ensures stays { IfOk result (λ grew. grew ≡ false → (m : ℕ) → Has self.new m → Has self.old m) }
    {
        let mut grew = false;
        'cells: for k in 0..cells.len() {
            let more = self.add(cells[k])?;
            grew |= more;
        }
        Ok(grew)
    }

    /// Adds the cells of the row.
    pub fn add_row(&mut self, row: Row) -> Result<(), NoMemory>
        requires { row.first + row.len < 2 ^ 32 }
        ensures { OnOk result ((m : ℕ) → Has self.new m ↔ (Has self.old m ⊎ IsInRow row m)) }
    {
        'cells: for c in row.first..row.first + row.len {
            self.add(c)?;
        }
        Ok(())
    }
}
