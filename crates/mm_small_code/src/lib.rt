//! The flattening of a small program's tree, case by case.
#![tactic(auto)]

pub mod laws;
