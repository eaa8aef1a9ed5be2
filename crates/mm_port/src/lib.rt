//! A source and a sink of bytes, with a count of faults, and their kinds: over memory and over std's readers and writers.
#![tactic(auto)]

mod memory;
mod port;
mod std_port;
#[cfg(test)]
mod tests;

pub use memory::{MemSink, MemSource};
pub use port::{Failed, NoMemory, Sink, Source};
pub use std_port::{StdSink, StdSource};
