//! The helpers under PSO, where each thread has a row for each cell.
ghost use Rattle.std.specs.Prelude.{◌≡◌, ◌<◌, ◌^◌, ◌∷◌, [], IfOk};
ghost use Rattle.mm_words.specs.Words.{num, var, elem, minus, times, modulo, less, greater, equal, assign_elem, assume, when, while, return};
ghost use Rattle.mm_helpers.specs.Helpers as helpers;
ghost use Rattle.mm_helpers.specs.Helpers.{wm_mem, wm_len, wm_val, wm_t, wm_c, wm_b, wm_j, step, shift};

use crate::parts;
use mm_goto::{Binary, NoMemory};
use mm_tree::{Gives, Item, Stmt};
use mm_words::{
    add, answer, assigned, condition, declaration, element, element_assigned, function_item,
    repetition, variable, with_number,
};
use sqlite_items::Boxed;
use std::alloc::Global;

// The oldest store reaches its cell.
fn oldest(alloc: Global, cells: u32, bound: u32) -> Result<Boxed<Stmt>, NoMemory>
    requires cells { cells < 2 ^ 31 }
    requires bound { bound < 2 ^ 31 }
    ensures { IfOk result (λ s. s ≡ assign_elem wm_mem (modulo (var wm_b) (num cells)) (elem wm_val (times (var wm_b) (num bound)))) }
{
    let cell = with_number(alloc, Binary::Rem, variable(alloc, "wm_b")?, cells)?;
    let value = element(alloc, "wm_val", parts::first_of(alloc, "wm_b", bound)?)?;
    element_assigned(alloc, "wm_mem", cell, value)
}

fn shifts(alloc: Global, bound: u32) -> Result<Boxed<Stmt>, NoMemory>
    requires { bound < 2 ^ 31 }
    ensures { IfOk result (λ s. s ≡ while (less (var wm_j) (elem wm_len (var wm_b))) (shift wm_val wm_b bound ∷ step wm_j ∷ [])) }
{
    let mut turn = Vec::new(alloc);
    add(&mut turn, parts::shift(alloc, "wm_val", "wm_b", bound)?)?;
    add(&mut turn, parts::step(alloc, "wm_j")?)?;
    repetition(alloc, parts::turns_left(alloc, "wm_b")?, turn)
}

pub fn pop(alloc: Global, cells: u32, bound: u32) -> Result<Boxed<Item>, NoMemory>
    requires cells { cells < 2 ^ 31 }
    requires bound { bound < 2 ^ 31 }
    ensures { IfOk result (λ item. item ≡ helpers.pso_pop cells bound) }
{
    let mut body = Vec::new(alloc);
    add(&mut body, declaration(alloc, "wm_j")?)?;
    add(&mut body, oldest(alloc, cells, bound)?)?;
    add(&mut body, parts::resized(alloc, "wm_b", Binary::Sub)?)?;
    add(&mut body, parts::zero(alloc, "wm_j")?)?;
    add(&mut body, shifts(alloc, bound)?)?;
    let params = parts::one_parameter(alloc, "wm_b")?;
    function_item(alloc, Gives::Nothing, "wm_pop", params, body)
}

fn all_empty(alloc: Global, cells: u32) -> Result<Boxed<Stmt>, NoMemory>
    requires { cells < 2 ^ 31 }
    ensures { IfOk result (λ s. s ≡ while (less (var wm_c) (num cells)) (assume (equal (elem wm_len (helpers.in_row wm_t cells (var wm_c))) (num 0)) ∷ step wm_c ∷ [])) }
{
    let mut turn = Vec::new(alloc);
    add(
        &mut turn,
        parts::is_empty(alloc, parts::cell_row(alloc, cells)?)?,
    )?;
    add(&mut turn, parts::step(alloc, "wm_c")?)?;
    let left = with_number(alloc, Binary::Lt, variable(alloc, "wm_c")?, cells)?;
    repetition(alloc, left, turn)
}

pub fn empty(alloc: Global, cells: u32) -> Result<Boxed<Item>, NoMemory>
    requires { cells < 2 ^ 31 }
    ensures { IfOk result (λ item. item ≡ helpers.pso_empty cells) }
{
    let mut body = Vec::new(alloc);
    add(&mut body, declaration(alloc, "wm_c")?)?;
    add(&mut body, parts::zero(alloc, "wm_c")?)?;
    add(&mut body, all_empty(alloc, cells)?)?;
    let params = parts::one_parameter(alloc, "wm_t")?;
    function_item(alloc, Gives::Nothing, "wm_empty", params, body)
}

pub fn put(alloc: Global, cells: u32, bound: u32) -> Result<Boxed<Item>, NoMemory>
    requires cells { cells < 2 ^ 31 }
    requires bound { bound < 2 ^ 31 }
    ensures { IfOk result (λ item. item ≡ helpers.pso_put cells bound) }
{
    let mut body = Vec::new(alloc);
    add(&mut body, declaration(alloc, "wm_b")?)?;
    add(
        &mut body,
        assigned(alloc, "wm_b", parts::cell_row(alloc, cells)?)?,
    )?;
    add(&mut body, parts::has_room(alloc, "wm_b", bound)?)?;
    add(
        &mut body,
        parts::put_behind(alloc, "wm_val", "wm_b", bound, "wm_v")?,
    )?;
    add(&mut body, parts::resized(alloc, "wm_b", Binary::Add)?)?;
    let params = parts::store_parameters(alloc)?;
    function_item(alloc, Gives::Nothing, "wm_put", params, body)
}

// The youngest store of the row is the one that is read, where there is one.
fn youngest(alloc: Global, bound: u32) -> Result<Boxed<Stmt>, NoMemory>
    requires { bound < 2 ^ 31 }
    ensures { IfOk result (λ s. s ≡ when (greater (elem wm_len (var wm_b)) (num 0)) (return (elem wm_val (minus (helpers.in_row wm_b bound (elem wm_len (var wm_b))) (num 1))) ∷ [])) }
{
    let behind = parts::free_in_row(alloc, "wm_b", bound)?;
    let place = with_number(alloc, Binary::Sub, behind, 1)?;
    let mut body = Vec::new(alloc);
    add(&mut body, answer(alloc, element(alloc, "wm_val", place)?)?)?;
    let some = with_number(alloc, Binary::Gt, parts::length_of(alloc, "wm_b")?, 0)?;
    condition(alloc, some, body)
}

pub fn get(alloc: Global, cells: u32, bound: u32) -> Result<Boxed<Item>, NoMemory>
    requires cells { cells < 2 ^ 31 }
    requires bound { bound < 2 ^ 31 }
    ensures { IfOk result (λ item. item ≡ helpers.pso_get cells bound) }
{
    let mut body = Vec::new(alloc);
    add(&mut body, declaration(alloc, "wm_b")?)?;
    add(
        &mut body,
        assigned(alloc, "wm_b", parts::cell_row(alloc, cells)?)?,
    )?;
    add(&mut body, youngest(alloc, bound)?)?;
    add(&mut body, parts::answer_memory(alloc)?)?;
    let params = parts::cell_parameters(alloc)?;
    function_item(alloc, Gives::Int, "wm_get", params, body)
}

pub fn set(alloc: Global, cells: u32) -> Result<Boxed<Item>, NoMemory>
    requires { cells < 2 ^ 31 }
    ensures { IfOk result (λ item. item ≡ helpers.pso_set cells) }
{
    let mut body = Vec::new(alloc);
    add(
        &mut body,
        parts::is_empty(alloc, parts::cell_row(alloc, cells)?)?,
    )?;
    add(&mut body, parts::set_memory(alloc)?)?;
    let params = parts::store_parameters(alloc)?;
    function_item(alloc, Gives::Nothing, "wm_set", params, body)
}
