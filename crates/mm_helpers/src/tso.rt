//! The helpers under TSO, where each thread has a row.
ghost use Rattle.std.specs.Prelude.{◌≡◌, ◌<◌, ◌^◌, ◌∷◌, [], IfOk};
ghost use Rattle.mm_words.specs.Words.{num, var, elem, minus, times, less, greater, equal, assign, assign_elem, when, while, return};
ghost use Rattle.mm_helpers.specs.Helpers as helpers;
ghost use Rattle.mm_helpers.specs.Helpers.{wm_mem, wm_len, wm_cell, wm_val, wm_t, wm_c, wm_j, step, shift};

use crate::parts;
use mm_goto::{Binary, NoMemory};
use mm_tree::{Gives, Item, Stmt};
use mm_words::{
    add, answer, assigned, condition, declaration, element, element_assigned, function_item,
    operation, repetition, variable, with_number,
};
use sqlite_items::Boxed;
use std::alloc::Global;

// The oldest store reaches its cell.
fn oldest(alloc: Global, bound: u32) -> Result<Boxed<Stmt>, NoMemory>
    requires { bound < 2 ^ 31 }
    ensures { IfOk result (λ s. s ≡ assign_elem wm_mem (elem wm_cell (times (var wm_t) (num bound))) (elem wm_val (times (var wm_t) (num bound)))) }
{
    let cell = element(alloc, "wm_cell", parts::first_of(alloc, "wm_t", bound)?)?;
    let value = element(alloc, "wm_val", parts::first_of(alloc, "wm_t", bound)?)?;
    element_assigned(alloc, "wm_mem", cell, value)
}

fn shifts(alloc: Global, bound: u32) -> Result<Boxed<Stmt>, NoMemory>
    requires { bound < 2 ^ 31 }
    ensures { IfOk result (λ s. s ≡ while (less (var wm_j) (elem wm_len (var wm_t))) (shift wm_cell wm_t bound ∷ shift wm_val wm_t bound ∷ step wm_j ∷ [])) }
{
    let mut turn = Vec::new(alloc);
    add(&mut turn, parts::shift(alloc, "wm_cell", "wm_t", bound)?)?;
    add(&mut turn, parts::shift(alloc, "wm_val", "wm_t", bound)?)?;
    add(&mut turn, parts::step(alloc, "wm_j")?)?;
    repetition(alloc, parts::turns_left(alloc, "wm_t")?, turn)
}

pub fn pop(alloc: Global, bound: u32) -> Result<Boxed<Item>, NoMemory>
    requires { bound < 2 ^ 31 }
    ensures { IfOk result (λ item. item ≡ helpers.tso_pop bound) }
{
    let mut body = Vec::new(alloc);
    add(&mut body, declaration(alloc, "wm_j")?)?;
    add(&mut body, oldest(alloc, bound)?)?;
    add(&mut body, parts::resized(alloc, "wm_t", Binary::Sub)?)?;
    add(&mut body, parts::zero(alloc, "wm_j")?)?;
    add(&mut body, shifts(alloc, bound)?)?;
    let params = parts::one_parameter(alloc, "wm_t")?;
    function_item(alloc, Gives::Nothing, "wm_pop", params, body)
}

pub fn empty(alloc: Global) -> Result<Boxed<Item>, NoMemory>
    ensures { IfOk result (λ item. item ≡ helpers.tso_empty) }
{
    let mut body = Vec::new(alloc);
    add(&mut body, parts::is_empty(alloc, variable(alloc, "wm_t")?)?)?;
    let params = parts::one_parameter(alloc, "wm_t")?;
    function_item(alloc, Gives::Nothing, "wm_empty", params, body)
}

pub fn put(alloc: Global, bound: u32) -> Result<Boxed<Item>, NoMemory>
    requires { bound < 2 ^ 31 }
    ensures { IfOk result (λ item. item ≡ helpers.tso_put bound) }
{
    let mut body = Vec::new(alloc);
    add(&mut body, parts::has_room(alloc, "wm_t", bound)?)?;
    add(
        &mut body,
        parts::put_behind(alloc, "wm_cell", "wm_t", bound, "wm_c")?,
    )?;
    add(
        &mut body,
        parts::put_behind(alloc, "wm_val", "wm_t", bound, "wm_v")?,
    )?;
    add(&mut body, parts::resized(alloc, "wm_t", Binary::Add)?)?;
    let params = parts::store_parameters(alloc)?;
    function_item(alloc, Gives::Nothing, "wm_put", params, body)
}

// The store at `wm_j` is the one that is read, where it is to the cell.
fn found(alloc: Global, bound: u32) -> Result<Boxed<Stmt>, NoMemory>
    requires { bound < 2 ^ 31 }
    ensures { IfOk result (λ s. s ≡ when (equal (elem wm_cell (helpers.in_row wm_t bound (var wm_j))) (var wm_c)) (return (elem wm_val (helpers.in_row wm_t bound (var wm_j))) ∷ [])) }
{
    let value = element(alloc, "wm_val", parts::turn_in_row(alloc, "wm_t", bound)?)?;
    let mut body = Vec::new(alloc);
    add(&mut body, answer(alloc, value)?)?;
    let cell = element(alloc, "wm_cell", parts::turn_in_row(alloc, "wm_t", bound)?)?;
    let same = operation(alloc, Binary::Eq, cell, variable(alloc, "wm_c")?)?;
    condition(alloc, same, body)
}

fn one_back(alloc: Global) -> Result<Boxed<Stmt>, NoMemory>
    ensures { IfOk result (λ s. s ≡ assign wm_j (minus (var wm_j) (num 1))) }
{
    let before = with_number(alloc, Binary::Sub, variable(alloc, "wm_j")?, 1)?;
    assigned(alloc, "wm_j", before)
}

fn search(alloc: Global, bound: u32) -> Result<Boxed<Stmt>, NoMemory>
    requires { bound < 2 ^ 31 }
    ensures { IfOk result (λ s. s ≡ while (greater (var wm_j) (num 0)) (assign wm_j (minus (var wm_j) (num 1)) ∷ when (equal (elem wm_cell (helpers.in_row wm_t bound (var wm_j))) (var wm_c)) (return (elem wm_val (helpers.in_row wm_t bound (var wm_j))) ∷ []) ∷ [])) }
{
    let mut turn = Vec::new(alloc);
    add(&mut turn, one_back(alloc)?)?;
    add(&mut turn, found(alloc, bound)?)?;
    let left = with_number(alloc, Binary::Gt, variable(alloc, "wm_j")?, 0)?;
    repetition(alloc, left, turn)
}

pub fn get(alloc: Global, bound: u32) -> Result<Boxed<Item>, NoMemory>
    requires { bound < 2 ^ 31 }
    ensures { IfOk result (λ item. item ≡ helpers.tso_get bound) }
{
    let mut body = Vec::new(alloc);
    add(&mut body, declaration(alloc, "wm_j")?)?;
    add(
        &mut body,
        assigned(alloc, "wm_j", parts::length_of(alloc, "wm_t")?)?,
    )?;
    add(&mut body, search(alloc, bound)?)?;
    add(&mut body, parts::answer_memory(alloc)?)?;
    let params = parts::cell_parameters(alloc)?;
    function_item(alloc, Gives::Int, "wm_get", params, body)
}

pub fn set(alloc: Global) -> Result<Boxed<Item>, NoMemory>
    ensures { IfOk result (λ item. item ≡ helpers.tso_set) }
{
    let mut body = Vec::new(alloc);
    add(&mut body, parts::is_empty(alloc, variable(alloc, "wm_t")?)?)?;
    add(&mut body, parts::set_memory(alloc)?)?;
    let params = parts::store_parameters(alloc)?;
    function_item(alloc, Gives::Nothing, "wm_set", params, body)
}
