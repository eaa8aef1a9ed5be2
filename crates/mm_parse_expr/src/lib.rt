//! Reading expressions.
#![tactic(auto)]

mod fault;
pub mod laws;
mod parse;
mod reading;
mod symbol;
mod terminal;

pub use fault::{ParseFault, fault_at};
pub use parse::{DEPTH, TOKENS, parse_expr};
pub use reading::{
    address_tree, read_close, read_close_bracket, read_expr, read_index, read_name, read_unary,
};
pub use symbol::{Keyword, MARKS, Symbol, WORDS, symbol_of};
pub use terminal::{Spelling, Terminal, terminals};
