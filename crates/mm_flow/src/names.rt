use mm_goto::{Ident, List};
use mm_tree::Side;

/// A local variable: its name, and the number of the local that it is.
#[derive(Drop)]
pub struct Named {
    pub name: Ident,
    pub number: u32,
}

/// A global variable or an array: its name, the number of its first cell, and how many cells it has.
#[derive(Drop)]
pub struct Spot {
    pub name: Ident,
    pub first: u32,
    pub len: u32,
}

/// The cells of a global: the number of the first, and how many there are.
#[derive(Clone, Copy)]
pub struct Cells {
    pub first: u32,
    pub len: u32,
}

/// How many assertions, and how many creates, stand before a statement.
#[derive(Clone, Copy)]
pub struct Seen {
    pub asserts: u32,
    pub starts: u32,
}

/// How two operands are joined.
#[derive(Clone, Copy)]
pub enum Joining {
    /// Both are evaluated.
    Both,
    /// The second only where the first is not 0.
    And,
    /// The second only where the first is 0.
    Or,
}

/// A `pthread_create`: the variable that holds the thread, and the thread's function.
#[derive(Drop)]
pub struct Started {
    pub variable: Ident,
    pub function: Ident,
}

/// What the statements of a program speak of.
#[derive(Drop)]
pub struct Parts {
    pub side: Side,
    /// The globals, in the order of the text.
    pub spots: List<Spot>,
    /// The mutexes, in the order of the text.
    pub mutexes: List<Ident>,
    /// The creates in the text of `main`, in its order.
    pub starts: List<Started>,
    /// For each item, how many assertions stand in those before it.
    pub asserts: List<u32>,
}
