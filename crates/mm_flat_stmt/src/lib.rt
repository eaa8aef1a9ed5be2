//! The code of statements and of the functions that they call.
#![tactic(auto)]

mod calls;
mod numbers;
mod simple;
mod statements;
mod updates;

pub use calls::{Function, function_of, is_function};
pub use statements::stmts;
