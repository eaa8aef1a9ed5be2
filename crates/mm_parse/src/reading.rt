//! Recursive descent.
mod action;
mod assignment;
mod declaration;
mod function;
mod global;
mod header;
mod item;
mod left;
mod list;
mod marks;
mod number;
mod opening;
mod simple;
mod statement;
mod value;

pub use item::read_program;
pub use statement::STATEMENT;
