//! Expressions in boxes.
ghost use Rattle.std.specs.Prelude.{◌≡◌, pos, IfOk};
ghost use Rattle.mm_goto.specs.Checks.{is_in_range, is_not_zero};
ghost use Rattle.mm_goto.specs.Terms.{applied, combined, constant, the_local};
ghost use Rattle.mm_flow.specs.Words.{address, chosen, element};

use mm_goto::{Binary, NoMemory, Pure, Target, Unary};
use sqlite_items::Boxed;
use std::alloc::Global;

#[tactic(auto, unfolding(mm_goto::specs::Terms::constant))]
pub fn constant(alloc: Global, z: i32) -> Result<Boxed<Pure>, NoMemory>
    ensures { IfOk result (λ e. e ≡ constant z) }
{
    Ok(Boxed::new(alloc, Pure::Const(z))?)
}

#[tactic(auto, unfolding(mm_goto::specs::Terms::the_local))]
pub fn the_local(alloc: Global, l: u32) -> Result<Boxed<Pure>, NoMemory>
    ensures { IfOk result (λ e. e ≡ the_local l) }
{
    Ok(Boxed::new(alloc, Pure::Local(l))?)
}

#[tactic(auto, unfolding(crate::specs::Words::address))]
pub fn address(alloc: Global, cell: u32) -> Result<Boxed<Pure>, NoMemory>
    ensures { IfOk result (λ e. e ≡ address cell) }
{
    Ok(Boxed::new(alloc, Pure::Addr(cell))?)
}

#[tactic(auto, unfolding(crate::specs::Words::element))]
pub fn element(
    alloc: Global,
    first: u32,
    len: u32,
    index: Boxed<Pure>,
) -> Result<Boxed<Pure>, NoMemory>
    ensures { IfOk result (λ e. e ≡ element first len index) }
{
    Ok(Boxed::new(alloc, Pure::AddrElem { first, len, index })?)
}

#[tactic(auto, unfolding(mm_goto::specs::Terms::applied))]
pub fn applied(alloc: Global, op: Unary, x: Boxed<Pure>) -> Result<Boxed<Pure>, NoMemory>
    ensures { IfOk result (λ e. e ≡ applied op x) }
{
    Ok(Boxed::new(alloc, Pure::Un(op, x))?)
}

#[tactic(auto, unfolding(mm_goto::specs::Terms::combined))]
pub fn combined(
    alloc: Global,
    op: Binary,
    x: Boxed<Pure>,
    y: Boxed<Pure>,
) -> Result<Boxed<Pure>, NoMemory>
    ensures { IfOk result (λ e. e ≡ combined op x y) }
{
    Ok(Boxed::new(alloc, Pure::Bin(op, x, y))?)
}

#[tactic(auto, unfolding(crate::specs::Words::chosen))]
pub fn chosen(
    alloc: Global,
    c: Boxed<Pure>,
    x: Boxed<Pure>,
    y: Boxed<Pure>,
) -> Result<Boxed<Pure>, NoMemory>
    ensures { IfOk result (λ e. e ≡ chosen c x y) }
{
    Ok(Boxed::new(alloc, Pure::Cond(c, x, y))?)
}

/// A copy of an expression.
pub fn copy(alloc: Global, e: &Pure) -> Result<Boxed<Pure>, NoMemory>
    ensures { IfOk result (λ p. p ≡ e.now) }
{
    match e {
        Pure::Const(z) => Ok(Boxed::new(alloc, Pure::Const(*z))?),
        Pure::Local(l) => Ok(Boxed::new(alloc, Pure::Local(*l))?),
        Pure::Addr(c) => Ok(Boxed::new(alloc, Pure::Addr(*c))?),
        Pure::AddrElem { first, len, index } => {
            let index = copy(alloc, index.get())?;
            let node = Pure::AddrElem {
                first: *first,
                len: *len,
                index,
            };
            Ok(Boxed::new(alloc, node)?)
        }
        Pure::Un(op, x) => {
            let x = copy(alloc, x.get())?;
            Ok(Boxed::new(alloc, Pure::Un(*op, x))?)
        }
        Pure::Bin(op, x, y) => {
            let x = copy(alloc, x.get())?;
            let y = copy(alloc, y.get())?;
            Ok(Boxed::new(alloc, Pure::Bin(*op, x, y))?)
        }
        Pure::Cond(c, x, y) => {
            let c = copy(alloc, c.get())?;
            let x = copy(alloc, x.get())?;
            let y = copy(alloc, y.get())?;
            Ok(Boxed::new(alloc, Pure::Cond(c, x, y))?)
        }
    }
}

/// A copy of a target.
pub fn copy_target(alloc: Global, target: &Target) -> Result<Boxed<Target>, NoMemory>
    ensures { IfOk result (λ t. t ≡ target.now) }
{
    match target {
        Target::Cell(c) => Ok(Boxed::new(alloc, Target::Cell(*c))?),
        Target::Elem { first, len, index } => {
            let index = copy(alloc, index)?.into_inner();
            let copy = Target::Elem {
                first: *first,
                len: *len,
                index,
            };
            Ok(Boxed::new(alloc, copy)?)
        }
        Target::Deref(e) => {
            let e = copy(alloc, e)?.into_inner();
            Ok(Boxed::new(alloc, Target::Deref(e))?)
        }
    }
}

/// Whether the value is not 0.
pub fn not_zero(alloc: Global, e: Boxed<Pure>) -> Result<Boxed<Pure>, NoMemory>
    ensures { IfOk result (λ p. p ≡ is_not_zero e) }
{
    let zero = constant(alloc, 0)?;
    combined(alloc, Binary::Ne, e, zero)
}

/// Whether the index is one of so many.
pub fn in_range(alloc: Global, index: &Pure, len: u32) -> Result<Boxed<Pure>, NoMemory>
    ensures { IfOk result (λ p. p ≡ is_in_range index.now len) }
{
    let Ok(len) = i32::try_from(len) else {
        return Err(NoMemory);
    };
    let zero = constant(alloc, 0)?;
    let index_is = copy(alloc, index)?;
    let low = combined(alloc, Binary::Le, zero, index_is)?;
    let index_is = copy(alloc, index)?;
    let end = constant(alloc, len)?;
    let high = combined(alloc, Binary::Lt, index_is, end)?;
    combined(alloc, Binary::Land, low, high)
}
