//! Structured code: what the statements of a text mean, before their instructions have places. The code of expressions, and of
//! what statements access, as it is made.
#![tactic(auto)]

pub mod assembler;
pub mod checks;
pub mod context;
pub mod expressions;
pub mod fault;
pub mod lefts;
pub mod locals;
pub mod mentions;
pub mod names;
pub mod places;
pub mod tables;
pub mod words;
