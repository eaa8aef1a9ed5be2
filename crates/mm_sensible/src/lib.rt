//! The names and types of a woven program make sense.
#![tactic(auto)]

pub mod laws;
