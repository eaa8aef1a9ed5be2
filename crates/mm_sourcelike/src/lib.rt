//! Which programs flattening gives: laws that join names, types and flattening.
#![tactic(auto)]

pub mod laws;
