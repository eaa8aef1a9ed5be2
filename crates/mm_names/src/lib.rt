//! Names and types: which programs make sense, what they declare, and where the first fault of one that makes none stands.
#![tactic(auto)]

mod calls;
mod checked;
mod item;
mod label;
pub mod laws;
mod layout;
mod program;
mod refusal;
mod thread;
mod top;

pub use checked::Checked;
pub use layout::Place;
pub use program::{check, check_owned};
pub use refusal::NameFault;
