//! What each instruction of a goto program becomes in a woven program.
#![tactic(auto)]

mod buffered;
mod expressions;
mod homes;
mod labelled;
mod names;
mod plain;
mod updates;

pub use homes::has_moved;
pub use labelled::woven_instr;
pub use names::{handle_name, local_name, thread_name};
pub use plain::append;
