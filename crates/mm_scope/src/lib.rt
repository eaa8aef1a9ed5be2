//! What each name of a program stands for, of which types its expressions are, and what is wrong with them.
#![tactic(auto)]

mod around;
mod assertion;
mod declare;
mod expression;
mod fault;
mod locals;
mod notes;
mod operand;
mod part;
mod scope;
mod statement;
mod table;
mod thread;
mod value;
mod walk;

pub use around::Around;
pub use declare::declare_name;
pub use expression::check_expression;
pub use fault::{Fault, Rule, lesser};
pub use notes::{Call, Notes, ThreadUse};
pub use operand::{Kind, Operand, fit};
pub use scope::Scope;
pub use statement::read_all;
pub use table::{Meaning, Table};
pub use value::kind_if_pointer;
pub use walk::{Walk, is_reserved};
