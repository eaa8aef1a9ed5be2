//! The machine with partial buffers, for TSO and PSO: just the stores of a set are pending before they reach memory.
#![tactic(auto)]

mod flags;
pub mod laws;
mod part;

pub use part::Part;
