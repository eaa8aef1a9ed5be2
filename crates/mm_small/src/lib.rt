//! Small programs: main alone, with global ints that are assigned and asserted. Laws: what their trees are flattened to.
#![tactic(auto)]

pub mod laws;
mod tree;
