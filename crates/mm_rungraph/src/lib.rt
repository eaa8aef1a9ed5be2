//! The run graph: the steps of a failing run, and what each of them waits for.
#![tactic(auto)]

mod entries;
mod graph;
pub mod laws;
mod run;
mod walk;

pub use graph::{RunFault, RunGraph};
pub use mm_runkeys::{EdgeKind, RunEdge, RunNode};
pub use run::run_graph;
