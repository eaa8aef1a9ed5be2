//! The parts of woven programs: an expression, statement or item for each form of C that is written there.
#![tactic(auto)]

mod assignments;
mod expressions;
mod items;
mod lists;
mod names;
mod statements;
mod threads;

pub use assignments::{
    assigned, call_assigned, call_of, call_with, element_assigned, pointed_assigned,
};
pub use expressions::{
    address, address_of_element, choice, element, natural, number, operation, pointed, unary,
    variable, with_number,
};
pub use items::{
    add_parameter, add_pointer_parameter, array_item, function_item, input_item, mutex_item,
    pointer_item, thread_item, thread_variable_item, variable_item,
};
pub use lists::{add, labelled, section};
pub use names::numbered;
pub use statements::{
    answer, assertion, assumption, block, branch, condition, declaration, empty, jump, label,
    pointer_declaration, repetition,
};
pub use threads::{atomic_begin, atomic_end, fence, join, lock, start, unlock};
