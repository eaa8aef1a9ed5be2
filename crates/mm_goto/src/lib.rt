//! Goto programs: cells, mutexes and threads of instructions, the expressions in them, and what a plan of buffers says.
#![tactic(auto)]

mod bound;
mod ident;
pub mod limits;
mod list;
mod model;
mod program;
mod pure;
mod row;
mod shape;
mod spot;
pub mod text;
mod value;

pub use bound::Bound;
pub use ident::{At, Ident, NoMemory};
pub use list::List;
pub use model::Model;
pub use program::{Cell, Instr, Program, Target, Thread};
pub use pure::{Binary, Pure, Unary};
pub use row::Row;
pub use shape::{Head, Note, Shape};
pub use spot::Spot;
pub use value::eval;
