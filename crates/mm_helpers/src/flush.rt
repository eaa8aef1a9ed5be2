//! The flushes of both models.
ghost use Rattle.std.specs.Prelude.{◌≡◌, ◌<◌, ◌^◌, ◌∷◌, [], IfOk};
ghost use Rattle.mm_words.specs.Words as words;
ghost use Rattle.mm_words.specs.Words.{num, var, elem, minus, at_most, greater, differ, both, assign_call, call, assume, while};
ghost use Rattle.mm_helpers.specs.Helpers as helpers;
ghost use Rattle.mm_helpers.specs.Helpers.{wm_len, wm_n, wm_pop, nondet_wm};

use mm_goto::{Binary, NoMemory};
use mm_tree::{Expr, Gives, Item, Stmt};
use mm_words::{
    add, assumption, call_assigned, call_of, declaration, element, function_item, operation,
    repetition, variable, with_number,
};
use sqlite_items::Boxed;
use std::alloc::Global;

fn compared(alloc: Global, op: Binary, n: u32) -> Result<Boxed<Expr>, NoMemory>
    requires { n < 2 ^ 31 }
    ensures { IfOk result (λ e. e ≡ words.bin op (var wm_n) (num n)) }
{
    with_number(alloc, op, variable(alloc, "wm_n")?, n)
}

fn names_a_row(alloc: Global, rows: u32) -> Result<Boxed<Stmt>, NoMemory>
    requires { rows < 2 ^ 31 }
    ensures { IfOk result (λ s. s ≡ assume (both (greater (var wm_n) (num 0)) (at_most (var wm_n) (num rows)))) }
{
    let above = compared(alloc, Binary::Gt, 0)?;
    let range = operation(
        alloc,
        Binary::Land,
        above,
        compared(alloc, Binary::Le, rows)?,
    )?;
    assumption(alloc, range)
}

fn named_row(alloc: Global) -> Result<Boxed<Expr>, NoMemory>
    ensures { IfOk result (λ e. e ≡ minus (var wm_n) (num 1)) }
{
    compared(alloc, Binary::Sub, 1)
}

fn has_a_store(alloc: Global) -> Result<Boxed<Stmt>, NoMemory>
    ensures { IfOk result (λ s. s ≡ assume (greater (elem wm_len (minus (var wm_n) (num 1))) (num 0))) }
{
    let length = element(alloc, "wm_len", named_row(alloc)?)?;
    assumption(alloc, with_number(alloc, Binary::Gt, length, 0)?)
}

fn pop_named_row(alloc: Global) -> Result<Boxed<Stmt>, NoMemory>
    ensures { IfOk result (λ s. s ≡ call wm_pop (minus (var wm_n) (num 1) ∷ [])) }
{
    call_of(alloc, "wm_pop", named_row(alloc)?)
}

fn ask(alloc: Global) -> Result<Boxed<Stmt>, NoMemory>
    ensures { IfOk result (λ s. s ≡ assign_call wm_n nondet_wm []) }
{
    call_assigned(alloc, "wm_n", "nondet_wm", Vec::new(alloc))
}

fn flushes(alloc: Global, rows: u32) -> Result<Boxed<Stmt>, NoMemory>
    requires { rows < 2 ^ 31 }
    ensures { IfOk result (λ s. s ≡ while (differ (var wm_n) (num 0)) (assume (both (greater (var wm_n) (num 0)) (at_most (var wm_n) (num rows))) ∷ assume (greater (elem wm_len (minus (var wm_n) (num 1))) (num 0)) ∷ call wm_pop (minus (var wm_n) (num 1) ∷ []) ∷ assign_call wm_n nondet_wm [] ∷ [])) }
{
    let mut turn = Vec::new(alloc);
    add(&mut turn, names_a_row(alloc, rows)?)?;
    add(&mut turn, has_a_store(alloc)?)?;
    add(&mut turn, pop_named_row(alloc)?)?;
    add(&mut turn, ask(alloc)?)?;
    repetition(alloc, compared(alloc, Binary::Ne, 0)?, turn)
}

pub fn flush(alloc: Global, rows: u32) -> Result<Boxed<Item>, NoMemory>
    requires { rows < 2 ^ 31 }
    ensures { IfOk result (λ item. item ≡ helpers.flush rows) }
{
    let mut body = Vec::new(alloc);
    add(&mut body, declaration(alloc, "wm_n")?)?;
    add(&mut body, ask(alloc)?)?;
    add(&mut body, flushes(alloc, rows)?)?;
    function_item(alloc, Gives::Nothing, "wm_flush", Vec::new(alloc), body)
}
