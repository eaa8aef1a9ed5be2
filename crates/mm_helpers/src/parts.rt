//! The statements that several helpers have, or several lines of one.
ghost use Rattle.std.specs.Prelude.{◌≡◌, ◌<◌, ◌^◌, ◌∷◌, [], IfOk};
ghost use Rattle.mm_words.specs.Words as words;
ghost use Rattle.mm_words.specs.Words.{num, var, elem, times, less, equal, assign, assign_elem, assume, return, param};
ghost use Rattle.mm_helpers.specs.Helpers as helpers;
ghost use Rattle.mm_helpers.specs.Helpers.{wm_mem, wm_len, wm_t, wm_c, wm_v, wm_j};

use mm_goto::{Binary, NoMemory};
use mm_tree::{Expr, Param, Stmt};
use mm_words::{
    add_parameter, answer, assigned, assumption, element, element_assigned, natural, operation,
    variable, with_number,
};
use sqlite_items::Boxed;
use std::alloc::Global;

// ---- expressions

/// How many stores are pending in the row.
pub fn length_of(alloc: Global, row: &str) -> Result<Boxed<Expr>, NoMemory>
    ensures { IfOk result (λ e. e ≡ elem wm_len (var row.now)) }
{
    element(alloc, "wm_len", variable(alloc, row)?)
}

/// The first place of the row, where each row has `places`.
pub fn first_of(alloc: Global, row: &str, places: u32) -> Result<Boxed<Expr>, NoMemory>
    requires { places < 2 ^ 31 }
    ensures { IfOk result (λ e. e ≡ times (var row.now) (num places)) }
{
    with_number(alloc, Binary::Mul, variable(alloc, row)?, places)
}

pub fn in_row(
    alloc: Global,
    row: &str,
    places: u32,
    e: Boxed<Expr>,
) -> Result<Boxed<Expr>, NoMemory>
    requires { places < 2 ^ 31 }
    ensures { IfOk result (λ p. p ≡ helpers.in_row row.now places e) }
{
    operation(alloc, Binary::Add, first_of(alloc, row, places)?, e)
}

/// The place of `wm_j` in the row.
pub fn turn_in_row(alloc: Global, row: &str, places: u32) -> Result<Boxed<Expr>, NoMemory>
    requires { places < 2 ^ 31 }
    ensures { IfOk result (λ e. e ≡ helpers.in_row row.now places (var wm_j)) }
{
    in_row(alloc, row, places, variable(alloc, "wm_j")?)
}

/// The first free place of the row.
pub fn free_in_row(alloc: Global, row: &str, places: u32) -> Result<Boxed<Expr>, NoMemory>
    requires { places < 2 ^ 31 }
    ensures { IfOk result (λ e. e ≡ helpers.in_row row.now places (elem wm_len (var row.now))) }
{
    in_row(alloc, row, places, length_of(alloc, row)?)
}

/// The row of the thread and the cell, under PSO.
pub fn cell_row(alloc: Global, cells: u32) -> Result<Boxed<Expr>, NoMemory>
    requires { cells < 2 ^ 31 }
    ensures { IfOk result (λ e. e ≡ helpers.in_row wm_t cells (var wm_c)) }
{
    in_row(alloc, "wm_t", cells, variable(alloc, "wm_c")?)
}

// ---- statements

/// A variable begins at 0.
pub fn zero(alloc: Global, name: &str) -> Result<Boxed<Stmt>, NoMemory>
    ensures { IfOk result (λ s. s ≡ assign name.now (num 0)) }
{
    assigned(alloc, name, natural(alloc, 0)?)
}

pub fn step(alloc: Global, name: &str) -> Result<Boxed<Stmt>, NoMemory>
    ensures { IfOk result (λ s. s ≡ helpers.step name.now) }
{
    let next = with_number(alloc, Binary::Add, variable(alloc, name)?, 1)?;
    assigned(alloc, name, next)
}

pub fn shift(alloc: Global, array: &str, row: &str, places: u32) -> Result<Boxed<Stmt>, NoMemory>
    requires { places < 2 ^ 31 }
    ensures { IfOk result (λ s. s ≡ helpers.shift array.now row.now places) }
{
    let to = turn_in_row(alloc, row, places)?;
    let from = with_number(alloc, Binary::Add, turn_in_row(alloc, row, places)?, 1)?;
    element_assigned(alloc, array, to, element(alloc, array, from)?)
}

/// The row becomes longer or shorter by 1.
pub fn resized(alloc: Global, row: &str, op: Binary) -> Result<Boxed<Stmt>, NoMemory>
    ensures { IfOk result (λ s. s ≡ assign_elem wm_len (var row.now) (words.bin op (elem wm_len (var row.now)) (num 1))) }
{
    let size = with_number(alloc, op, length_of(alloc, row)?, 1)?;
    element_assigned(alloc, "wm_len", variable(alloc, row)?, size)
}

/// The row has room for one more.
pub fn has_room(alloc: Global, row: &str, places: u32) -> Result<Boxed<Stmt>, NoMemory>
    requires { places < 2 ^ 31 }
    ensures { IfOk result (λ s. s ≡ assume (less (elem wm_len (var row.now)) (num places))) }
{
    let room = with_number(alloc, Binary::Lt, length_of(alloc, row)?, places)?;
    assumption(alloc, room)
}

/// The row of this number has no pending store.
pub fn is_empty(alloc: Global, row: Boxed<Expr>) -> Result<Boxed<Stmt>, NoMemory>
    ensures { IfOk result (λ s. s ≡ assume (equal (elem wm_len row) (num 0))) }
{
    let none = with_number(alloc, Binary::Eq, element(alloc, "wm_len", row)?, 0)?;
    assumption(alloc, none)
}

/// The value stands at the first free place of the row.
pub fn put_behind(
    alloc: Global,
    array: &str,
    row: &str,
    places: u32,
    value: &str,
) -> Result<Boxed<Stmt>, NoMemory>
    requires { places < 2 ^ 31 }
    ensures { IfOk result (λ s. s ≡ assign_elem array.now (helpers.in_row row.now places (elem wm_len (var row.now))) (var value.now)) }
{
    let place = free_in_row(alloc, row, places)?;
    element_assigned(alloc, array, place, variable(alloc, value)?)
}

/// The row's pending stores from `wm_j` on are left.
pub fn turns_left(alloc: Global, row: &str) -> Result<Boxed<Expr>, NoMemory>
    ensures { IfOk result (λ e. e ≡ less (var wm_j) (elem wm_len (var row.now))) }
{
    let length = length_of(alloc, row)?;
    operation(alloc, Binary::Lt, variable(alloc, "wm_j")?, length)
}

/// What memory holds.
pub fn answer_memory(alloc: Global) -> Result<Boxed<Stmt>, NoMemory>
    ensures { IfOk result (λ s. s ≡ return (elem wm_mem (var wm_c))) }
{
    answer(alloc, element(alloc, "wm_mem", variable(alloc, "wm_c")?)?)
}

/// The store reaches memory.
pub fn set_memory(alloc: Global) -> Result<Boxed<Stmt>, NoMemory>
    ensures { IfOk result (λ s. s ≡ assign_elem wm_mem (var wm_c) (var wm_v)) }
{
    let cell = variable(alloc, "wm_c")?;
    element_assigned(alloc, "wm_mem", cell, variable(alloc, "wm_v")?)
}

// ---- parameters

pub fn one_parameter(alloc: Global, name: &str) -> Result<Vec<Param>, NoMemory>
    ensures { IfOk result (λ ps. ps.items ≡ param name.now ∷ []) }
{
    let mut params = Vec::new(alloc);
    add_parameter(alloc, &mut params, name)?;
    Ok(params)
}

/// A thread and a cell.
pub fn cell_parameters(alloc: Global) -> Result<Vec<Param>, NoMemory>
    ensures { IfOk result (λ ps. ps.items ≡ param wm_t ∷ param wm_c ∷ []) }
{
    let mut params = one_parameter(alloc, "wm_t")?;
    add_parameter(alloc, &mut params, "wm_c")?;
    Ok(params)
}

/// A thread, a cell and a value.
pub fn store_parameters(alloc: Global) -> Result<Vec<Param>, NoMemory>
    ensures { IfOk result (λ ps. ps.items ≡ param wm_t ∷ param wm_c ∷ param wm_v ∷ []) }
{
    let mut params = cell_parameters(alloc)?;
    add_parameter(alloc, &mut params, "wm_v")?;
    Ok(params)
}
