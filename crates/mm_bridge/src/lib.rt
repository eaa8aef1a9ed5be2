//! From run graphs to the event graph of the program: what leads from step to step in a run leads from site to site in the text.
#![tactic(auto)]

pub mod laws;
