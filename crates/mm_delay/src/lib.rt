//! Which stores are buffered: those that have a delay cycle, each with a note; and what a program woven with buffers needs to know.
#![tactic(auto)]

mod addressed;
mod flags;
mod flush_points;
mod moved;
mod notes;
mod planning;
mod sets;

pub use notes::head;
pub use planning::plan;
