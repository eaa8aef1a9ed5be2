ghost use Rattle.std.specs.Prelude.{◌≡◌, ◌∷◌, [], IfOk};
ghost use Rattle.mm_words.specs.Words as words;
ghost use Rattle.mm_tree.specs.Places.{nowhere};
ghost use Rattle.mm_tree.specs.Trees as tree;

use crate::lists::add;
use mm_goto::{At, Ident, List, NoMemory};
use mm_tree::{Expr, Left, LeftNode, Stmt, StmtNode, Value};
use sqlite_items::Boxed;
use std::alloc::Global;

// A left side at 1:1.
fn left(alloc: Global, node: LeftNode) -> Result<Boxed<Left>, NoMemory>
    ensures { IfOk result (λ left. left ≡ tree.left_at nowhere node) }
{
    let at = At::start();
    Ok(Boxed::new(alloc, Left { at, node })?)
}

// The variable as a left side.
fn named(alloc: Global, name: &str) -> Result<Boxed<Left>, NoMemory>
    ensures { IfOk result (λ left. left ≡ tree.named_left nowhere name.now) }
{
    left(alloc, LeftNode::Name(Ident::copy_of(alloc, name)?))
}

// A call with these arguments.
fn called(alloc: Global, f: &str, es: Vec<Expr>) -> Result<Boxed<Value>, NoMemory>
    ensures { IfOk result (λ v. v ≡ words.called f.now es.items) }
{
    let f = Ident::copy_of(alloc, f)?;
    Ok(Boxed::new(alloc, Value::Call(At::start(), f, List::new(es)))?)
}

/// `x = e;`
#[tactic(auto, unfolding(crate::specs::Words::stmt_of))]
pub fn assigned(alloc: Global, name: &str, e: Boxed<Expr>) -> Result<Boxed<Stmt>, NoMemory>
    ensures { IfOk result (λ s. s ≡ words.assign name.now e) }
{
    let left = named(alloc, name)?;
    let value = Boxed::new(alloc, Value::Plain(e))?;
    Stmt::boxed(alloc, At::start(), StmtNode::Assign(left, value))
}

/// `x = f(..);`
#[tactic(auto, unfolding(crate::specs::Words::stmt_of))]
pub fn call_assigned(
    alloc: Global,
    name: &str,
    f: &str,
    es: Vec<Expr>,
) -> Result<Boxed<Stmt>, NoMemory>
    ensures { IfOk result (λ s. s ≡ words.assign_call name.now f.now es.items) }
{
    let left = named(alloc, name)?;
    let value = called(alloc, f, es)?;
    Stmt::boxed(alloc, At::start(), StmtNode::Assign(left, value))
}

/// `x[i] = e;`
#[tactic(auto, unfolding(crate::specs::Words::stmt_of))]
pub fn element_assigned(
    alloc: Global,
    name: &str,
    index: Boxed<Expr>,
    e: Boxed<Expr>,
) -> Result<Boxed<Stmt>, NoMemory>
    ensures { IfOk result (λ s. s ≡ words.assign_elem name.now index e) }
{
    let name = Ident::copy_of(alloc, name)?;
    let left = left(alloc, LeftNode::Index(name, index))?;
    let value = Boxed::new(alloc, Value::Plain(e))?;
    Stmt::boxed(alloc, At::start(), StmtNode::Assign(left, value))
}

/// `*p = e;`
#[tactic(auto, unfolding(crate::specs::Words::stmt_of))]
pub fn pointed_assigned(
    alloc: Global,
    pointer: Boxed<Expr>,
    e: Boxed<Expr>,
) -> Result<Boxed<Stmt>, NoMemory>
    ensures { IfOk result (λ s. s ≡ words.assign_deref pointer e) }
{
    let left = left(alloc, LeftNode::Deref(pointer))?;
    let value = Boxed::new(alloc, Value::Plain(e))?;
    Stmt::boxed(alloc, At::start(), StmtNode::Assign(left, value))
}

/// `f(..);`
#[tactic(auto, unfolding(crate::specs::Words::stmt_of))]
pub fn call_with(alloc: Global, f: &str, es: Vec<Expr>) -> Result<Boxed<Stmt>, NoMemory>
    ensures { IfOk result (λ s. s ≡ words.call f.now es.items) }
{
    let value = called(alloc, f, es)?;
    Stmt::boxed(alloc, At::start(), StmtNode::Do(value))
}

/// `f(e);`
pub fn call_of(alloc: Global, f: &str, e: Boxed<Expr>) -> Result<Boxed<Stmt>, NoMemory>
    ensures { IfOk result (λ s. s ≡ words.call f.now (e ∷ [])) }
{
    let mut es = Vec::new(alloc);
    add(&mut es, e)?;
    call_with(alloc, f, es)
}
