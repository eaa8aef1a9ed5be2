use sqlite_items::Boxed;

/// An operator before its operand.
#[derive(Clone, Copy, Debug, PartialEq, Eq)]
pub enum Unary {
    Neg,
    Plus,
    Not,
    Flip,
}

/// An operator between its operands.
#[derive(Clone, Copy, Debug, PartialEq, Eq)]
pub enum Binary {
    Add,
    Sub,
    Mul,
    Div,
    Rem,
    Shl,
    Shr,
    Lt,
    Le,
    Gt,
    Ge,
    Eq,
    Ne,
    And,
    Xor,
    Or,
    Land,
    Lor,
}

/// An expression over a thread's locals, which reads no cell.
#[derive(Debug, Drop)]
pub enum Pure {
    /// A number.
    Const(i32),
    /// A local, by its number.
    Local(u32),
    /// The address of a cell, by the cell's number.
    Addr(u32),
    /// The address of an element of the `len` cells from `first` on.
    AddrElem {
        first: u32,
        len: u32,
        index: Boxed<Pure>,
    },
    Un(Unary, Boxed<Pure>),
    Bin(Binary, Boxed<Pure>, Boxed<Pure>),
    /// The second where the first is not 0, else the third.
    Cond(Boxed<Pure>, Boxed<Pure>, Boxed<Pure>),
}
