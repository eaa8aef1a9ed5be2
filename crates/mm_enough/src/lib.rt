//! The buffers of a plan are enough: what fails with store buffers fails with those of the plan alone, and the other way.
#![tactic(auto)]

pub mod laws;
