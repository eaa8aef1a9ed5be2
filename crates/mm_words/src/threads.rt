ghost use Rattle.std.specs.Prelude.{◌≡◌, IfOk};
ghost use Rattle.mm_words.specs.Words as words;

use crate::names::word;
use mm_goto::{At, Ident, NoMemory};
use mm_tree::{Stmt, StmtNode};
use sqlite_items::Boxed;
use std::alloc::Global;

/// `__CPROVER_atomic_begin();`
#[tactic(auto, unfolding(crate::specs::Words::stmt_of))]
pub fn atomic_begin(alloc: Global) -> Result<Boxed<Stmt>, NoMemory>
    ensures { IfOk result (λ s. s ≡ words.atomic_begin) }
{
    Stmt::boxed(alloc, At::start(), StmtNode::AtomBegin)
}

/// `__CPROVER_atomic_end();`
#[tactic(auto, unfolding(crate::specs::Words::stmt_of))]
pub fn atomic_end(alloc: Global) -> Result<Boxed<Stmt>, NoMemory>
    ensures { IfOk result (λ s. s ≡ words.atomic_end) }
{
    Stmt::boxed(alloc, At::start(), StmtNode::AtomEnd)
}

/// `__sync_synchronize();`
#[tactic(auto, unfolding(crate::specs::Words::stmt_of))]
pub fn fence(alloc: Global) -> Result<Boxed<Stmt>, NoMemory>
    ensures { IfOk result (λ s. s ≡ words.fence) }
{
    Stmt::boxed(alloc, At::start(), StmtNode::Fence)
}

/// `pthread_mutex_lock(&m);`
#[tactic(auto, unfolding(crate::specs::Words::stmt_of))]
pub fn lock(alloc: Global, mutex: &str) -> Result<Boxed<Stmt>, NoMemory>
    ensures { IfOk result (λ s. s ≡ words.lock mutex.now) }
{
    let mutex = Ident::copy_of(alloc, mutex)?;
    Stmt::boxed(alloc, At::start(), StmtNode::Lock(word(mutex)))
}

/// `pthread_mutex_unlock(&m);`
#[tactic(auto, unfolding(crate::specs::Words::stmt_of))]
pub fn unlock(alloc: Global, mutex: &str) -> Result<Boxed<Stmt>, NoMemory>
    ensures { IfOk result (λ s. s ≡ words.unlock mutex.now) }
{
    let mutex = Ident::copy_of(alloc, mutex)?;
    Stmt::boxed(alloc, At::start(), StmtNode::Unlock(word(mutex)))
}

/// `pthread_create(&t, 0, f, 0);`
#[tactic(auto, unfolding(crate::specs::Words::stmt_of))]
pub fn start(alloc: Global, thread: &str, function: &str) -> Result<Boxed<Stmt>, NoMemory>
    ensures { IfOk result (λ s. s ≡ words.start thread.now function.now) }
{
    let thread = Ident::copy_of(alloc, thread)?;
    let function = Ident::copy_of(alloc, function)?;
    let node = StmtNode::Start(word(thread), word(function));
    Stmt::boxed(alloc, At::start(), node)
}

/// `pthread_join(t, 0);`
#[tactic(auto, unfolding(crate::specs::Words::stmt_of))]
pub fn join(alloc: Global, thread: &str) -> Result<Boxed<Stmt>, NoMemory>
    ensures { IfOk result (λ s. s ≡ words.join thread.now) }
{
    let thread = Ident::copy_of(alloc, thread)?;
    Stmt::boxed(alloc, At::start(), StmtNode::Join(word(thread)))
}
