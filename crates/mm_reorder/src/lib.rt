//! Orders of a failing run's steps: each that keeps the edges of the run graph, and those that a set of stores adds, is a
//! run of the machine that buffers this set alone. Where these edges have a cycle, the set lacks a store that is overtaken.
#![tactic(auto)]

pub mod laws;
