//! The event graph of a program: its sites, which are the instructions that other threads can see, and what leads from one to
//! another (Alglave, Kroening, Nimal, Tautschnig, ESOP 2013).
#![tactic(auto)]

mod access;
mod event_graph;
mod fault;
mod flow;
mod making;
mod order;
mod places;
mod relations;
mod site;
mod tables;
mod turns;

pub use event_graph::Graph;
pub use fault::GraphFault;
pub use making::{graph, has_graph};
pub use site::{Site, SiteKind};
