//! Examples of the crates that read a text: its tokens, its expressions, its tree, and what is told of a fault.
#![tactic(auto)]

#[cfg(test)]
mod expressions;
#[cfg(test)]
mod names;
#[cfg(test)]
mod programs;
#[cfg(test)]
mod tokens;
