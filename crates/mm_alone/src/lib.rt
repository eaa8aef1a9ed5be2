//! The woven programs of main alone, line by line: no pending store stands in them.
#![tactic(auto)]

pub mod laws;
