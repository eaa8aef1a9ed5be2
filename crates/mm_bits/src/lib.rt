//! Relations over numbers below 1,024 as tables of bits: their transitive closure, and the first of the shortest paths.
#![tactic(auto)]

mod bits;
mod closing;
mod levels;
mod numbers;
mod table;
mod walk;

pub use levels::Levels;
pub use numbers::Numbers;
pub use table::Bits;
