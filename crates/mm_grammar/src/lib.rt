//! The grammar of statements, items and programs, and how deep a text may nest.
#![tactic(auto)]

mod depth;
pub mod laws;

pub use depth::{Counts, deep_at};
