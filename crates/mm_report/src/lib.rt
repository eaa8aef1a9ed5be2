//! The report on the buffered stores of a program, as JSON.
#![tactic(auto)]

mod cells;
mod reporting;

pub use reporting::report;
