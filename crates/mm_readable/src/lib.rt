//! The text of a woven program is read as its tree.
#![tactic(auto)]

pub mod laws;
