//! A woven program keeps the limits of the output side.
#![tactic(auto)]

pub mod laws;
