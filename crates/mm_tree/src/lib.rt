//! The syntax tree of the C profile, its equality without places, and its copy.
#![tactic(auto)]

mod copy;
mod expr;
mod item;
mod same;
mod side;
mod stmt;

pub use expr::{Expr, Node, Word};
pub use item::{Gives, Global, Item, Param, Tree};
pub use side::Side;
pub use stmt::{Left, LeftNode, Local, Stmt, StmtNode, Value};
