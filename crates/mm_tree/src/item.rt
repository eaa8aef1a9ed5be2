use crate::expr::{Expr, Word};
use crate::stmt::Stmt;
use mm_goto::{At, Ident, List};

/// A parameter of a function.
#[derive(Drop)]
pub struct Param {
    pub pointer: bool,
    pub name: Word,
}

/// A global variable that is declared.
#[derive(Drop)]
pub struct Global {
    /// The token of its name.
    pub at: At,
    pub pointer: bool,
    pub name: Ident,
    /// The length of an array.
    pub len: Option<i32>,
    /// The expressions of the initialiser, in their order: one for a variable, one or more for an array. Empty where
    /// there is no initialiser.
    pub init: List<Expr>,
}

/// What a function gives back.
#[derive(Clone, Copy, PartialEq, Eq)]
pub enum Gives {
    Int,
    /// `int *`.
    Pointer,
    /// `void`.
    Nothing,
    /// `void *`: it is the function of a thread.
    Thread,
}

/// An item of a program.
#[derive(Drop)]
pub enum Item {
    Globals(List<Global>),
    Mutexes(List<Word>),
    /// Variables that hold threads.
    Threads(List<Word>),
    /// `int nondet_x();`, with the token of its name.
    InputDecl(At, Ident),
    Function {
        /// The token of its name.
        at: At,
        gives: Gives,
        name: Ident,
        /// The parameter of a thread's function is a pointer, and is left out where it has no name.
        params: List<Param>,
        body: List<Stmt>,
    },
}

/// A program's text, item by item.
#[derive(Drop)]
pub struct Tree {
    pub items: List<Item>,
}
