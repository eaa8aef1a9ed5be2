//! What a program's text says of its runs with store buffers: the cells that an access is to, the ways of control, and the
//! order by starts and joins.
#![tactic(auto)]

pub mod laws;
