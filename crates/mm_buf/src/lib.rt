//! The machine with store buffers, for TSO and PSO: each store is pending before it reaches memory.
#![tactic(auto)]

mod buf;

pub use buf::Buf;
