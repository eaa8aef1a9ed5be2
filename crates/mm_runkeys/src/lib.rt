//! What the steps of a run have to do with, by keys, and what each of them waits for, as it is found along the run.
#![tactic(auto)]

mod behind;
mod graph;
mod keys;
mod marks;
mod since;

pub use graph::{EdgeKind, RunEdge, RunNode};
pub use keys::Layout;
pub use marks::Marks;
