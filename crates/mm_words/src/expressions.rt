ghost use Rattle.std.specs.Prelude.{◌≡◌, ◌<◌, ◌^◌, IfOk};
ghost use Rattle.mm_words.specs.Words as words;

use crate::names::word;
use mm_goto::{At, Binary, Ident, NoMemory, Unary};
use mm_tree::{Expr, Node};
use sqlite_items::Boxed;
use std::alloc::Global;

/// A number. One below 0 is read back only as a start value.
#[tactic(auto, unfolding(crate::specs::Words::expr_of))]
pub fn number(alloc: Global, z: i32) -> Result<Boxed<Expr>, NoMemory>
    ensures { IfOk result (λ e. e ≡ words.number z) }
{
    Expr::boxed(alloc, At::start(), Node::Number(z))
}

/// A number that is not below 0.
pub fn natural(alloc: Global, n: u32) -> Result<Boxed<Expr>, NoMemory>
    requires { n < 2 ^ 31 }
    ensures { IfOk result (λ e. e ≡ words.num n) }
{
    number(alloc, n.cast_signed())
}

/// `x`.
#[tactic(auto, unfolding(crate::specs::Words::expr_of))]
pub fn variable(alloc: Global, name: &str) -> Result<Boxed<Expr>, NoMemory>
    ensures { IfOk result (λ e. e ≡ words.var name.now) }
{
    let name = Ident::copy_of(alloc, name)?;
    Expr::boxed(alloc, At::start(), Node::Name(name))
}

/// `x[e]`.
#[tactic(auto, unfolding(crate::specs::Words::expr_of))]
pub fn element(alloc: Global, name: &str, index: Boxed<Expr>) -> Result<Boxed<Expr>, NoMemory>
    ensures { IfOk result (λ e. e ≡ words.elem name.now index) }
{
    let name = Ident::copy_of(alloc, name)?;
    Expr::boxed(alloc, At::start(), Node::Index(name, index))
}

/// `*e`.
#[tactic(auto, unfolding(crate::specs::Words::expr_of))]
pub fn pointed(alloc: Global, pointer: Boxed<Expr>) -> Result<Boxed<Expr>, NoMemory>
    ensures { IfOk result (λ e. e ≡ words.deref pointer) }
{
    Expr::boxed(alloc, At::start(), Node::Deref(pointer))
}

/// `&x`.
#[tactic(auto, unfolding(crate::specs::Words::expr_of))]
pub fn address(alloc: Global, name: &str) -> Result<Boxed<Expr>, NoMemory>
    ensures { IfOk result (λ e. e ≡ words.address name.now) }
{
    let name = Ident::copy_of(alloc, name)?;
    Expr::boxed(alloc, At::start(), Node::AddrName(word(name)))
}

/// `&x[e]`.
#[tactic(auto, unfolding(crate::specs::Words::expr_of))]
pub fn address_of_element(
    alloc: Global,
    name: &str,
    index: Boxed<Expr>,
) -> Result<Boxed<Expr>, NoMemory>
    ensures { IfOk result (λ e. e ≡ words.address_elem name.now index) }
{
    let name = Ident::copy_of(alloc, name)?;
    Expr::boxed(alloc, At::start(), Node::AddrIndex(word(name), index))
}

/// An operator before its operand.
#[tactic(auto, unfolding(crate::specs::Words::expr_of))]
pub fn unary(alloc: Global, op: Unary, a: Boxed<Expr>) -> Result<Boxed<Expr>, NoMemory>
    ensures { IfOk result (λ e. e ≡ words.un op a) }
{
    Expr::boxed(alloc, At::start(), Node::Un(op, a))
}

/// An operator between its operands.
#[tactic(auto, unfolding(crate::specs::Words::expr_of))]
pub fn operation(
    alloc: Global,
    op: Binary,
    a: Boxed<Expr>,
    b: Boxed<Expr>,
) -> Result<Boxed<Expr>, NoMemory>
    ensures { IfOk result (λ e. e ≡ words.bin op a b) }
{
    Expr::boxed(alloc, At::start(), Node::Bin(op, a, b))
}

/// An operator before a number.
pub fn with_number(
    alloc: Global,
    op: Binary,
    a: Boxed<Expr>,
    n: u32,
) -> Result<Boxed<Expr>, NoMemory>
    requires { n < 2 ^ 31 }
    ensures { IfOk result (λ e. e ≡ words.bin op a (words.num n)) }
{
    operation(alloc, op, a, natural(alloc, n)?)
}

/// `test ? a : b`.
#[tactic(auto, unfolding(crate::specs::Words::expr_of))]
pub fn choice(
    alloc: Global,
    test: Boxed<Expr>,
    a: Boxed<Expr>,
    b: Boxed<Expr>,
) -> Result<Boxed<Expr>, NoMemory>
    ensures { IfOk result (λ e. e ≡ words.choice test a b) }
{
    Expr::boxed(alloc, At::start(), Node::Cond(test, a, b))
}
