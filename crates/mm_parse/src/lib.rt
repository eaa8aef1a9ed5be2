//! The parser: from the text of a program to the program.
#![tactic(auto)]

mod program;
mod reading;

pub use mm_parse_expr::ParseFault;
pub use program::parse;
pub use reading::STATEMENT;
