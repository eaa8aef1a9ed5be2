//! What may be decided of every program: the cells of an access, and the delay cycles of a store.
#![tactic(auto)]

pub mod laws;
