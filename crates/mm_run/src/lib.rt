//! The top call: from the words of the command line and an input to a status and an output.
#![tactic(auto)]

mod answer;
mod command;
mod cycles;
mod event_graph;
mod input;
mod instrument;
pub mod laws;
mod machine;
mod output;
mod parts;
mod program;
mod replay;
mod respond;
mod status;
pub mod tables;
mod top;
mod words;

pub use command::Settings;
pub use input::MAX_INPUT;
pub use status::Status;
pub use top::run;
pub use words::settings;
