//! Flattening: from the tree of a program's text to its goto program.
#![tactic(auto)]

mod cells;
mod gather;
mod limits;
mod program;
mod settle;

pub use mm_flow::fault::{FlatFault, Limit};
pub use program::flatten;
