use mm_goto::{At, Ident, List};

/// The most variables that a small program may have.
pub const MAX_VARIABLES: usize = 256;

/// The most accesses of variables that a small program may have.
pub const MAX_SITES: usize = 1024;

/// A statement of a small program. Variables are given by their numbers.
#[derive(Clone, Copy, Debug, PartialEq, Eq)]
pub enum Statement {
    /// A number is assigned to a variable.
    Number {
        at: At,
        cell: u32,
        number: i32,
    },
    /// What a variable has is assigned to another.
    Variable {
        at: At,
        cell: u32,
        from_at: At,
        from: u32,
    },
    /// A variable is asserted to have a value.
    Assert {
        at: At,
        cell_at: At,
        cell: u32,
        number: i32,
    },
}

/// A small program: its variables, its statements, and the places of main's name and of its `return`.
#[derive(Debug, Drop)]
pub struct Small {
    pub variables: List<Ident>,
    pub body: List<Statement>,
    pub main_at: At,
    pub return_at: At,
}

/// The statements before `return 0`, and the place of that.
#[derive(Debug, Drop)]
pub struct Body {
    pub statements: List<Statement>,
    pub return_at: At,
}
