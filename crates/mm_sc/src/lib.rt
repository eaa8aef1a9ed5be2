//! The machine of sequential consistency: each store writes memory at once.
#![tactic(auto)]

mod sc;

pub use sc::Sc;
