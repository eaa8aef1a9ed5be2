//! The tokens of a program's text.
#![tactic(auto)]

mod class;
mod front;
pub mod laws;
mod lexing;
mod piece;
mod place;
mod token;

pub use front::is_name;
pub use lexing::lex;
pub use place::end_of;
pub use token::{LexFault, Token, TokenKind};
