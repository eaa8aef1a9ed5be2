//! Expressions in C.
ghost use Rattle.std.specs.Prelude.{◌≡◌, ◌+◌, IfOk};
ghost use Rattle.mm_words.specs.Words.{num, var};
ghost use Rattle.mm_templates.specs.Names as names;
ghost use Rattle.mm_templates.specs.Expressions as specs;

use crate::names::local_name;
use mm_goto::{Binary, NoMemory, Pure, Target};
use mm_tree::Expr;
use mm_words::{choice, natural, number, operation, unary, variable, with_number};
use sqlite_items::Boxed;
use std::alloc::Global;

/// A number of cells, threads or places. All are far below the limit, where there would be no memory for them.
pub fn count(alloc: Global, n: u32) -> Result<Boxed<Expr>, NoMemory>
    ensures { IfOk result (λ e. e ≡ num n) }
{
    if n > i32::MAX as u32 {
        return Err(NoMemory);
    }
    natural(alloc, n)
}

// The number behind a cell's: its address.
fn address(alloc: Global, c: u32) -> Result<Boxed<Expr>, NoMemory>
    ensures { IfOk result (λ e. e ≡ num (c + 1)) }
{
    match c.checked_add(1) {
        Some(n) => count(alloc, n),
        None => Err(NoMemory),
    }
}

/// A local, by its name.
pub fn local(alloc: Global, l: u32) -> Result<Boxed<Expr>, NoMemory>
    ensures { IfOk result (λ e. e ≡ var (names.local_name l)) }
{
    let name = local_name(alloc, l)?;
    variable(alloc, name.text())
}

/// An expression over the names of the locals.
pub fn printed(alloc: Global, e: &Pure) -> Result<Boxed<Expr>, NoMemory>
    ensures { IfOk result (λ made. made ≡ specs.printed e.now) }
{
    match e {
        Pure::Const(k) => number(alloc, *k),
        Pure::Local(l) => local(alloc, *l),
        Pure::Addr(c) => address(alloc, *c),
        Pure::AddrElem { first, index, .. } => {
            let index = printed(alloc, index.get())?;
            operation(alloc, Binary::Add, address(alloc, *first)?, index)
        }
        Pure::Un(op, x) => unary(alloc, *op, printed(alloc, x.get())?),
        Pure::Bin(op, x, y) => {
            let x = printed(alloc, x.get())?;
            operation(alloc, *op, x, printed(alloc, y.get())?)
        }
        Pure::Cond(x, y, z) => {
            let x = printed(alloc, x.get())?;
            let y = printed(alloc, y.get())?;
            choice(alloc, x, y, printed(alloc, z.get())?)
        }
    }
}

/// The number of a target's cell.
pub fn cell_number(alloc: Global, target: &Target) -> Result<Boxed<Expr>, NoMemory>
    ensures { IfOk result (λ e. e ≡ specs.cell_number target.now) }
{
    match target {
        Target::Cell(c) => count(alloc, *c),
        Target::Elem { first, index, .. } => {
            let index = printed(alloc, index)?;
            operation(alloc, Binary::Add, count(alloc, *first)?, index)
        }
        Target::Deref(e) => with_number(alloc, Binary::Sub, printed(alloc, e)?, 1),
    }
}
