//! Laws on the machines, and examples.

pub mod examples;
pub mod kinds;
pub mod runs;
