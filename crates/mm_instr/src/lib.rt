//! The woven program of a goto program: pending stores are ordinary variables.
#![tactic(auto)]

mod asked;
mod functions;
mod items;
mod variables;
mod weaving;

pub use weaving::instrument;
