ghost use Rattle.std.specs.Prelude.{◌≡◌, ◌++◌, ◌∷◌, [], IfOk};
ghost use Rattle.mm_words.specs.Words as words;

use crate::statements::label;
use crate::threads::{atomic_begin, atomic_end};
use mm_goto::NoMemory;
use mm_tree::Stmt;
use sqlite_items::Boxed;
use std::alloc::Global;

/// Puts a part at the end.
pub fn add<T: Drop>(to: &mut Vec<T>, one: Boxed<T>) -> Result<(), NoMemory>
    ensures { IfOk result (λ u. to.new.items ≡ to.old.items ++ one ∷ []) }
{
    Ok(to.push(one.into_inner())?)
}

// Puts a part at the head.
fn add_first<T: Drop>(to: &mut Vec<T>, one: Boxed<T>) -> Result<(), NoMemory>
    ensures { IfOk result (λ u. to.new.items ≡ one ∷ to.old.items) }
{
    Ok(to.insert(0, one.into_inner())?)
}

/// The statements with a label before the first of them. Where there is none there is no label.
pub fn labelled(alloc: Global, name: &str, stmts: Vec<Stmt>) -> Result<Vec<Stmt>, NoMemory>
    ensures { IfOk result (λ made. made.items ≡ words.labelled name.now stmts.items) }
{
    let mut stmts = stmts;
    if stmts.is_empty() {
        return Ok(stmts);
    }
    let first = Boxed::new(alloc, stmts.remove(0))?;
    let first = label(alloc, name, first)?;
    add_first(&mut stmts, first)?;
    Ok(stmts)
}

/// The statements as one atomic section.
pub fn section(alloc: Global, stmts: Vec<Stmt>) -> Result<Vec<Stmt>, NoMemory>
    ensures { IfOk result (λ made. made.items ≡ words.section stmts.items) }
{
    let mut stmts = stmts;
    add_first(&mut stmts, atomic_begin(alloc)?)?;
    add(&mut stmts, atomic_end(alloc)?)?;
    Ok(stmts)
}
