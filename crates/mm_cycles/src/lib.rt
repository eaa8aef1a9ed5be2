//! Delay cycles: how a store that stays pending may be seen to be late.
#![tactic(auto)]

mod cycles;
mod delay;
mod unsafe_pairs;
mod walk;

pub use delay::{check_walk, find_cycle};
pub use walk::{Steps, Walk};
