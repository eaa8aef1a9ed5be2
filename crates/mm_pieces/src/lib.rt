//! What the helpers of a woven program do: its arrays stand for the pending stores of the machine.
#![tactic(auto)]

pub mod laws;
pub mod pso;
