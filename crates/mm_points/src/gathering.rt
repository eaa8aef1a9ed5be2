ghost use Rattle.std.specs.Prelude.{◌≡◌, ◌↔◌, ◌⊎◌, ℕ, ◌<◌, ◌≤◌, ◌+◌, ◌^◌, false, length, IfOk, OnOk, Some, slice_get, slice_index_or};
ghost use Rattle.mm_goto.specs.declared.row.Row.{Row};
ghost use Rattle.mm_goto.specs.PointsTo.{IsInRow};
ghost use Rattle.mm_points.specs.Sets.{Has, Linked};
ghost use Rattle.mm_points.specs.reading.Rules.{IsPointer, IsAimIn, InAim};

use crate::cell_set::CellSet;
use crate::rules::Aim;
use mm_goto::{NoMemory, Row};
use std::alloc::Global;

/// Adds the cells of the rows.
fn add_rows(rows: &[Row], into: &mut CellSet) -> Result<(), NoMemory>
    requires { (k : ℕ) (row : Row) → slice_get rows.now k ≡ Some row → row.first + row.len < 2 ^ 32 }
    ensures { OnOk result ((c : ℕ) → Has into.new c ↔ (Has into.old c ⊎ ((k : ℕ) × (row : Row) × (slice_get rows.now k ≡ Some row) × IsInRow row c))) }
{
    'rows: for k in 0..rows.len() {
        into.add_row(rows[k])?;
    }
    Ok(())
}

/// Adds what the holders have.
fn add_locals(
    sets: &[CellSet],
    base: u32,
    locals: &[u32],
    into: &mut CellSet,
) -> Result<(), NoMemory>
    requires few { length sets.now < 2 ^ 32 }
    requires locals { (k l : ℕ) → slice_get locals.now k ≡ Some l → base + l < length sets.now }
    ensures { OnOk result ((c : ℕ) → Has into.new c ↔ (Has into.old c ⊎ ((k : ℕ) × (l : ℕ) × (slice_get locals.now k ≡ Some l) × Linked sets.now (base + l) c))) }
{
    'locals: for k in 0..locals.len() {
        let l = locals[k];
        into.join(sets[(base + l) as usize].items())?;
    }
    Ok(())
}

/// What the aim names.
pub fn value_of(alloc: Global, sets: &[CellSet], aim: &Aim) -> Result<CellSet, NoMemory>
    requires few { length sets.now < 2 ^ 32 }
    requires fits { IsAimIn (length sets.now) aim.now }
    ensures { IfOk result (λ found. (c : ℕ) → Has found c ↔ InAim (Linked sets.now) aim.now c) }
{
    let mut found = CellSet::empty(alloc);
    add_rows(aim.rows.items(), &mut found)?;
    add_locals(sets, aim.base, aim.locals.items(), &mut found)?;
    Ok(found)
}

/// Whether the cell holds an address.
pub fn is_pointer(pointers: &[bool], k: u32) -> bool
    ensures { result ≡ slice_index_or pointers.now k false }
{
    (k as usize) < pointers.len() && pointers[k as usize]
}

/// Adds what the cell has if it holds an address.
fn gather_from(
    sets: &[CellSet],
    pointers: &[bool],
    k: u32,
    into: &mut CellSet,
) -> Result<(), NoMemory>
    requires { length pointers.now ≤ length sets.now }
    ensures { OnOk result ((c : ℕ) → Has into.new c ↔ (Has into.old c ⊎ (IsPointer pointers.now k × Linked sets.now k c))) }
{
    if is_pointer(pointers, k) {
        into.join(sets[k as usize].items())?;
    }
    Ok(())
}

/// What the pointers among the names have.
pub fn gather(
    alloc: Global,
    sets: &[CellSet],
    pointers: &[bool],
    names: &[u32],
) -> Result<CellSet, NoMemory>
    requires { length pointers.now ≤ length sets.now }
    ensures { IfOk result (λ found. (c : ℕ) → Has found c ↔ ((i : ℕ) × (k : ℕ) × (slice_get names.now i ≡ Some k) × IsPointer pointers.now k × Linked sets.now k c)) }
{
    let mut found = CellSet::empty(alloc);
    'names: for i in 0..names.len() {
        gather_from(sets, pointers, names[i], &mut found)?;
    }
    Ok(found)
}
