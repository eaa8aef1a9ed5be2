//! The machines: states, entries, steps and runs, for sequential consistency, TSO, PSO and the partial machine. The text
//! of schedules.
#![tactic(auto)]

pub mod alone;
mod count;
mod entry;
mod frame;
mod interpreter;
pub mod laws;
mod read;
mod rules;
mod schedule;
pub mod text;
mod waiting;
mod write;

pub use entry::{Act, Entry, Event, How, Rules, Stuck};
pub use interpreter::Interpreter;
pub use read::read_schedule;
pub use schedule::{Line, SchedFault, Schedule};
pub use write::write_schedule;
