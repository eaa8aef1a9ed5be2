//! The functions with which a woven program keeps its pending stores in arrays.
#![tactic(auto)]

mod flush;
mod made;
mod parts;
mod pso;
mod tso;

pub use made::{arrays, helpers};
