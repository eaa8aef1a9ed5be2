//! The printer: from a program to its text.
#![tactic(auto)]

mod expressions;
mod head;
mod items;
pub mod laws;
mod lists;
mod parts;
mod printed;
mod statements;
mod words;

pub use printed::print;
