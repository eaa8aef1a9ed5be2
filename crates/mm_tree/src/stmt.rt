ghost use Rattle.std.specs.Prelude.{◌≡◌, IfOk};
ghost use Rattle.mm_tree.specs.Trees.{statement};

use crate::expr::{Expr, Word};
use mm_goto::{At, Binary, Ident, List, NoMemory};
use sqlite_items::{Boxed, Items};
use std::alloc::Global;

/// The left side of an assignment.
#[derive(Drop)]
pub struct Left {
    /// The first token. Parentheses round the left side do not count.
    pub at: At,
    pub node: LeftNode,
}

/// What a left side is made of.
#[derive(Drop)]
pub enum LeftNode {
    /// `x`.
    Name(Ident),
    /// `a[e]`.
    Index(Ident, Boxed<Expr>),
    /// `*e`.
    Deref(Boxed<Expr>),
}

/// What may be assigned or returned, or may stand as a statement.
#[derive(Drop)]
pub enum Value {
    Plain(Boxed<Expr>),
    /// A call of a function. The place is the token of the function's name.
    Call(At, Ident, List<Expr>),
    /// `__sync_fetch_and_add(p, e)`. The place is the token of that word.
    FetchAdd(At, Boxed<Expr>, Boxed<Expr>),
    /// `__sync_bool_compare_and_swap(p, e, f)`. The place is the token of that word.
    CompareSwap(At, Boxed<Expr>, Boxed<Expr>, Boxed<Expr>),
}

/// A local variable that is declared.
#[derive(Drop)]
pub struct Local {
    /// The token of its name.
    pub at: At,
    pub pointer: bool,
    pub name: Ident,
    pub value: Option<Boxed<Value>>,
}

/// A statement or a declaration in a block.
#[cycle(stmt)]
#[derive(Drop)]
pub struct Stmt {
    /// The first token.
    pub at: At,
    pub node: StmtNode,
}

/// What a statement is made of.
#[cycle(stmt)]
#[derive(Drop)]
pub enum StmtNode {
    Empty,
    Block(Items<Stmt>),
    Declare(List<Local>),
    /// Variables that hold threads.
    DeclareThread(List<Word>),
    /// `left = value`.
    Assign(Boxed<Left>, Boxed<Value>),
    /// `left op= e`. `++` and `--` are `+= 1` and `-= 1`, with the 1 at that token.
    Update(Boxed<Left>, Binary, Boxed<Expr>),
    /// A call for its effect.
    Do(Boxed<Value>),
    /// `if`, with what stands behind `else`.
    If(Boxed<Expr>, Boxed<Stmt>, Option<Boxed<Stmt>>),
    While(Boxed<Expr>, Boxed<Stmt>),
    DoWhile(Boxed<Stmt>, Boxed<Expr>),
    /// `for (first; condition; step) body`. Where the text has no condition it is the number 1, at the `;` behind it.
    For(Option<Boxed<Stmt>>, Option<Boxed<Expr>>, Option<Boxed<Stmt>>, Boxed<Stmt>),
    Break,
    Continue,
    Return(Option<Boxed<Value>>),
    /// An assertion, with its text where it has one.
    Assert(Boxed<Expr>, Option<Ident>),
    Assume(Boxed<Expr>),
    Fence,
    /// Locks the mutex of this name.
    Lock(Word),
    /// Unlocks the mutex of this name.
    Unlock(Word),
    /// Starts a thread: the variable that holds it, and its function.
    Start(Word, Word),
    /// Waits for the thread that the variable holds.
    Join(Word),
    Goto(Word),
    /// `name: statement`.
    Label(Word, Boxed<Stmt>),
    AtomBegin,
    AtomEnd,
}

impl Stmt {
    /// A statement at a place, in a box.
    pub fn boxed(alloc: Global, at: At, node: StmtNode) -> Result<Boxed<Stmt>, NoMemory>
        ensures { IfOk result (λ made. made ≡ statement at node) }
    {
        Ok(Boxed::new(alloc, Stmt { at, node })?)
    }
}
