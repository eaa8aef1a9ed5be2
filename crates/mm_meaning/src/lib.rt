//! What structured code means on the machine of sequential consistency, and that a thread in its atomic section runs so.
#![tactic(auto)]

pub mod laws;
