//! Points-to sets: which cells each access of a program may be to (Andersen, Program Analysis and Specialization for the C
//! Programming Language, 1994).
#![tactic(auto)]

mod aims;
mod cell_set;
mod gathering;
mod listing;
mod points;
mod ruled;
mod rules;
mod settling;

pub use points::{PointsTo, points_to};
