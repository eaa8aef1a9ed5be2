ghost use Rattle.std.specs.Prelude.{◌≡◌, None, IfOk};
ghost use Rattle.mm_words.specs.Words as words;
ghost use Rattle.mm_tree.specs.Places.{nowhere};
ghost use Rattle.mm_tree.specs.Trees as tree;

use crate::names::{numbered, word};
use mm_goto::{At, Ident, List, NoMemory};
use mm_tree::{Expr, Local, Stmt, StmtNode, Value};
use sqlite_items::{Boxed, Items};
use std::alloc::Global;

/// `;`
#[tactic(auto, unfolding(crate::specs::Words::stmt_of))]
pub fn empty(alloc: Global) -> Result<Boxed<Stmt>, NoMemory>
    ensures { IfOk result (λ s. s ≡ words.skip) }
{
    Stmt::boxed(alloc, At::start(), StmtNode::Empty)
}

// ---- declarations

// A variable without a start value.
fn local(name: Ident, pointer: bool) -> Local
    ensures { result ≡ tree.local nowhere pointer name None }
{
    Local {
        at: At::start(),
        pointer,
        name,
        value: None,
    }
}

/// `int x;`
#[tactic(auto, unfolding(crate::specs::Words::stmt_of))]
pub fn declaration(alloc: Global, name: &str) -> Result<Boxed<Stmt>, NoMemory>
    ensures { IfOk result (λ s. s ≡ words.declare name.now) }
{
    let mut locals = Vec::new(alloc);
    locals.push(local(Ident::copy_of(alloc, name)?, false))?;
    Stmt::boxed(alloc, At::start(), StmtNode::Declare(List::new(locals)))
}

/// `int *x;`
#[tactic(auto, unfolding(crate::specs::Words::stmt_of))]
pub fn pointer_declaration(alloc: Global, name: &str) -> Result<Boxed<Stmt>, NoMemory>
    ensures { IfOk result (λ s. s ≡ words.declare_pointer name.now) }
{
    let mut locals = Vec::new(alloc);
    locals.push(local(Ident::copy_of(alloc, name)?, true))?;
    Stmt::boxed(alloc, At::start(), StmtNode::Declare(List::new(locals)))
}

// ---- checks

/// `__CPROVER_assume(e);`
#[tactic(auto, unfolding(crate::specs::Words::stmt_of))]
pub fn assumption(alloc: Global, e: Boxed<Expr>) -> Result<Boxed<Stmt>, NoMemory>
    ensures { IfOk result (λ s. s ≡ words.assume e) }
{
    Stmt::boxed(alloc, At::start(), StmtNode::Assume(e))
}

/// `__CPROVER_assert(e, "assertion n");`
#[tactic(auto, unfolding(crate::specs::Words::stmt_of))]
pub fn assertion(alloc: Global, e: Boxed<Expr>, n: u32) -> Result<Boxed<Stmt>, NoMemory>
    ensures { IfOk result (λ s. s ≡ words.assert e n) }
{
    let text = numbered(alloc, "assertion ", n)?;
    Stmt::boxed(alloc, At::start(), StmtNode::Assert(e, Some(text)))
}

// ---- bodies

/// `{ .. }`
#[tactic(auto, unfolding(crate::specs::Words::stmt_of))]
pub fn block(alloc: Global, stmts: Vec<Stmt>) -> Result<Boxed<Stmt>, NoMemory>
    ensures { IfOk result (λ s. s ≡ words.block stmts.items) }
{
    Stmt::boxed(alloc, At::start(), StmtNode::Block(Items::from_vec(stmts)))
}

/// `if (e) { .. }`
#[tactic(auto, unfolding(crate::specs::Words::stmt_of))]
pub fn condition(alloc: Global, e: Boxed<Expr>, stmts: Vec<Stmt>) -> Result<Boxed<Stmt>, NoMemory>
    ensures { IfOk result (λ s. s ≡ words.when e stmts.items) }
{
    let body = block(alloc, stmts)?;
    Stmt::boxed(alloc, At::start(), StmtNode::If(e, body, None))
}

/// `while (e) { .. }`
#[tactic(auto, unfolding(crate::specs::Words::stmt_of))]
pub fn repetition(alloc: Global, e: Boxed<Expr>, stmts: Vec<Stmt>) -> Result<Boxed<Stmt>, NoMemory>
    ensures { IfOk result (λ s. s ≡ words.while e stmts.items) }
{
    let body = block(alloc, stmts)?;
    Stmt::boxed(alloc, At::start(), StmtNode::While(e, body))
}

// ---- jumps

/// `return e;`
#[tactic(auto, unfolding(crate::specs::Words::stmt_of))]
pub fn answer(alloc: Global, e: Boxed<Expr>) -> Result<Boxed<Stmt>, NoMemory>
    ensures { IfOk result (λ s. s ≡ words.return e) }
{
    let value = Boxed::new(alloc, Value::Plain(e))?;
    Stmt::boxed(alloc, At::start(), StmtNode::Return(Some(value)))
}

/// `goto x;`
#[tactic(auto, unfolding(crate::specs::Words::stmt_of))]
pub fn jump(alloc: Global, name: &str) -> Result<Boxed<Stmt>, NoMemory>
    ensures { IfOk result (λ s. s ≡ words.go_to name.now) }
{
    let name = Ident::copy_of(alloc, name)?;
    Stmt::boxed(alloc, At::start(), StmtNode::Goto(word(name)))
}

/// `if (e) goto x;`
#[tactic(auto, unfolding(crate::specs::Words::stmt_of))]
pub fn branch(alloc: Global, e: Boxed<Expr>, name: &str) -> Result<Boxed<Stmt>, NoMemory>
    ensures { IfOk result (λ s. s ≡ words.branch e name.now) }
{
    let jump = jump(alloc, name)?;
    Stmt::boxed(alloc, At::start(), StmtNode::If(e, jump, None))
}

/// `x: s`
#[tactic(auto, unfolding(crate::specs::Words::stmt_of))]
pub fn label(alloc: Global, name: &str, stmt: Boxed<Stmt>) -> Result<Boxed<Stmt>, NoMemory>
    ensures { IfOk result (λ s. s ≡ words.label name.now stmt) }
{
    let name = Ident::copy_of(alloc, name)?;
    Stmt::boxed(alloc, At::start(), StmtNode::Label(word(name), stmt))
}
