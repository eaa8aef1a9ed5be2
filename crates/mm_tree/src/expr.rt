ghost use Rattle.std.specs.Prelude.{◌≡◌, IfOk};
ghost use Rattle.mm_tree.specs.Trees.{expr};

use mm_goto::{At, Binary, Ident, NoMemory, Unary};
use sqlite_items::Boxed;
use std::alloc::Global;

/// A name with the place of its token.
#[derive(Drop)]
pub struct Word {
    pub at: At,
    pub name: Ident,
}

/// An expression. Parentheses leave no node.
#[cycle(expr)]
#[derive(Drop)]
pub struct Expr {
    /// The first token. Where an operator stands between two parts or three it is that of the first part, and
    /// parentheses round the expression do not count.
    pub at: At,
    pub node: Node,
}

/// What an expression is made of.
#[cycle(expr)]
#[derive(Drop)]
pub enum Node {
    /// A number. In a global's initialiser it may be below 0, and then stands at its `-`.
    Number(i32),
    /// `NULL`.
    Null,
    /// `x`.
    Name(Ident),
    /// `a[e]`.
    Index(Ident, Boxed<Expr>),
    /// `*e`.
    Deref(Boxed<Expr>),
    /// `&x`.
    AddrName(Word),
    /// `&a[e]`.
    AddrIndex(Word, Boxed<Expr>),
    /// An operator before its operand.
    Un(Unary, Boxed<Expr>),
    /// An operator between its operands.
    Bin(Binary, Boxed<Expr>, Boxed<Expr>),
    /// `c ? a : b`.
    Cond(Boxed<Expr>, Boxed<Expr>, Boxed<Expr>),
}

impl Expr {
    /// An expression at a place, in a box.
    pub fn boxed(alloc: Global, at: At, node: Node) -> Result<Boxed<Expr>, NoMemory>
        ensures { IfOk result (λ made. made ≡ expr at node) }
    {
        Ok(Boxed::new(alloc, Expr { at, node })?)
    }
}
