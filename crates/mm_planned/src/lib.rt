//! A program has a plan of buffers, and only one.
#![tactic(auto)]

pub mod laws;
