//! Reading tokens from the front: what readers of one grammar or another share.
#![tactic(auto)]

mod kept;
pub mod laws;
mod refused;

pub use kept::{keep, pair};
pub use refused::Refused;
