//! Steps of a thread of a woven program that no other thread can see.
#![tactic(auto)]

pub mod laws;
