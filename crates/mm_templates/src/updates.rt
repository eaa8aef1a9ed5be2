//! Reading and writing a cell in one step: fetch-and-add and compare-and-swap.
ghost use Rattle.std.specs.Prelude.{◌≡◌, ◌∷◌, [], IfOk};
ghost use Rattle.mm_words.specs.Words.{assign, plus, equal, var, when};
ghost use Rattle.mm_templates.specs.Names as names;
ghost use Rattle.mm_templates.specs.Expressions as expressions;
ghost use Rattle.mm_templates.specs.Instructions as specs;

use crate::expressions::{local, printed};
use crate::homes::{read, write};
use crate::names::local_name;
use mm_goto::{Binary, NoMemory, Program, Pure, Shape, Target};
use mm_tree::{Expr, Stmt};
use mm_words::{add, assigned, condition, operation};
use sqlite_items::Boxed;
use std::alloc::Global;

/// A local becomes a value.
pub fn local_assigned(alloc: Global, l: u32, e: Boxed<Expr>) -> Result<Boxed<Stmt>, NoMemory>
    ensures { IfOk result (λ s. s ≡ assign (names.local_name l) e) }
{
    let name = local_name(alloc, l)?;
    assigned(alloc, name.text(), e)
}

/// What a target has now.
pub fn value_at(
    alloc: Global,
    program: &Program,
    shape: &Shape,
    target: &Target,
) -> Result<Boxed<Expr>, NoMemory>
    ensures { IfOk result (λ e. e ≡ specs.value_at program.now shape.now target.now) }
{
    read(alloc, program.cells(), shape.moved.items(), target)
}

/// A target becomes a value.
pub fn written(
    alloc: Global,
    program: &Program,
    shape: &Shape,
    target: &Target,
    e: Boxed<Expr>,
) -> Result<Boxed<Stmt>, NoMemory>
    ensures { IfOk result (λ s. s ≡ specs.written program.now shape.now target.now e) }
{
    write(alloc, program.cells(), shape.moved.items(), target, e)
}

// A local becomes what the target has.
fn fetched(
    alloc: Global,
    program: &Program,
    shape: &Shape,
    l: u32,
    target: &Target,
) -> Result<Boxed<Stmt>, NoMemory>
    ensures { IfOk result (λ s. s ≡ assign (names.local_name l) (specs.value_at program.now shape.now target.now)) }
{
    local_assigned(alloc, l, value_at(alloc, program, shape, target)?)
}

fn sum(alloc: Global, l: u32, e: &Pure) -> Result<Boxed<Expr>, NoMemory>
    ensures { IfOk result (λ made. made ≡ plus (var (names.local_name l)) (expressions.printed e.now)) }
{
    let value = local(alloc, l)?;
    operation(alloc, Binary::Add, value, printed(alloc, e)?)
}

/// The local gets what the target has, to which the value is added.
pub fn added(
    alloc: Global,
    program: &Program,
    shape: &Shape,
    l: u32,
    target: &Target,
    e: &Pure,
) -> Result<Vec<Stmt>, NoMemory>
    ensures { IfOk result (λ stmts. stmts.items ≡ specs.added program.now shape.now l target.now e.now) }
{
    let mut stmts = Vec::new(alloc);
    add(&mut stmts, fetched(alloc, program, shape, l, target)?)?;
    add(
        &mut stmts,
        written(alloc, program, shape, target, sum(alloc, l, e)?)?,
    )?;
    Ok(stmts)
}

fn is_expected(alloc: Global, l: u32, e: &Pure) -> Result<Boxed<Expr>, NoMemory>
    ensures { IfOk result (λ made. made ≡ equal (var (names.local_name l)) (expressions.printed e.now)) }
{
    let value = local(alloc, l)?;
    operation(alloc, Binary::Eq, value, printed(alloc, e)?)
}

// The target is written where the local has what is expected.
fn exchanged(
    alloc: Global,
    program: &Program,
    shape: &Shape,
    l: u32,
    target: &Target,
    e: &Pure,
    f: &Pure,
) -> Result<Boxed<Stmt>, NoMemory>
    ensures { IfOk result (λ s. s ≡ when (equal (var (names.local_name l)) (expressions.printed e.now)) (specs.written program.now shape.now target.now (expressions.printed f.now) ∷ [])) }
{
    let test = is_expected(alloc, l, e)?;
    let mut then = Vec::new(alloc);
    add(
        &mut then,
        written(alloc, program, shape, target, printed(alloc, f)?)?,
    )?;
    condition(alloc, test, then)
}

/// The target is written where it has what is expected, and the local tells whether it was.
pub fn swapped(
    alloc: Global,
    program: &Program,
    shape: &Shape,
    l: u32,
    target: &Target,
    e: &Pure,
    f: &Pure,
) -> Result<Vec<Stmt>, NoMemory>
    ensures { IfOk result (λ stmts. stmts.items ≡ specs.swapped program.now shape.now l target.now e.now f.now) }
{
    let mut stmts = Vec::new(alloc);
    add(&mut stmts, fetched(alloc, program, shape, l, target)?)?;
    add(
        &mut stmts,
        exchanged(alloc, program, shape, l, target, e, f)?,
    )?;
    add(
        &mut stmts,
        local_assigned(alloc, l, is_expected(alloc, l, e)?)?,
    )?;
    Ok(stmts)
}
