ghost use Rattle.std.specs.Prelude.{◌≡◌, IfOk};
ghost use Rattle.mm_tree.specs.Trees.{statement};

use crate::expr::{Expr, Node, Word};
use crate::item::{self, Item, Param, Tree};
use crate::stmt::{Left, LeftNode, Local, Stmt, StmtNode, Value};
use mm_goto::{At, Ident, List, NoMemory};
use sqlite_items::{Boxed, Items};
use std::alloc::Global;

/// A part of a tree that can be copied.
trait Duplicate: Drop {
    /// A copy, places included.
    fn duplicate(&self, alloc: Global) -> Result<Self, NoMemory>
        ensures { IfOk result (λ copy. copy ≡ self.now) };
}

impl Tree {
    /// A copy, places included.
    pub fn copy(&self, alloc: Global) -> Result<Tree, NoMemory>
        ensures { IfOk result (λ tree. tree ≡ self.now) }
    {
        let items = self.items.duplicate(alloc)?;
        Ok(Tree { items })
    }
}

impl Stmt {
    /// A copy, places included.
    pub fn copy(&self, alloc: Global) -> Result<Stmt, NoMemory>
        ensures { IfOk result (λ stmt. stmt ≡ self.now) }
    {
        Ok(copy_stmt(alloc, self)?.into_inner())
    }
}

impl Expr {
    /// A copy, places included.
    pub fn copy(&self, alloc: Global) -> Result<Expr, NoMemory>
        ensures { IfOk result (λ expr. expr ≡ self.now) }
    {
        Ok(copy_expr(alloc, self)?.into_inner())
    }
}

impl<T: Duplicate> Duplicate for List<T> {
    fn duplicate(&self, alloc: Global) -> Result<List<T>, NoMemory> {
        let mut copy = Vec::new(alloc);
        for part in self.items() {
            copy.push(part.duplicate(alloc)?)?;
        }
        Ok(List::new(copy))
    }
}

impl<T: Duplicate> Duplicate for Option<T> {
    fn duplicate(&self, alloc: Global) -> Result<Option<T>, NoMemory> {
        match self {
            Some(part) => Ok(Some(part.duplicate(alloc)?)),
            None => Ok(None),
        }
    }
}

impl<T: Duplicate> Duplicate for Boxed<T> {
    fn duplicate(&self, alloc: Global) -> Result<Boxed<T>, NoMemory> {
        Ok(Boxed::new(alloc, self.get().duplicate(alloc)?)?)
    }
}

impl Duplicate for Ident {
    fn duplicate(&self, alloc: Global) -> Result<Ident, NoMemory> {
        Ident::copy_of(alloc, self.text())
    }
}

impl Duplicate for Word {
    fn duplicate(&self, alloc: Global) -> Result<Word, NoMemory> {
        let name = self.name.duplicate(alloc)?;
        Ok(Word { at: self.at, name })
    }
}

impl Duplicate for Expr {
    fn duplicate(&self, alloc: Global) -> Result<Expr, NoMemory> {
        self.copy(alloc)
    }
}

fn copy_expr(alloc: Global, expr: &Expr) -> Result<Boxed<Expr>, NoMemory>
    ensures { IfOk result (λ copy. copy ≡ expr.now) }
{
    let at = expr.at;
    match &expr.node {
        Node::Number(n) => Expr::boxed(alloc, at, Node::Number(*n)),
        Node::Null => Expr::boxed(alloc, at, Node::Null),
        Node::Name(name) => {
            let name = name.duplicate(alloc)?;
            Expr::boxed(alloc, at, Node::Name(name))
        }
        Node::Index(name, index) => {
            let index = copy_expr(alloc, index.get())?;
            let name = name.duplicate(alloc)?;
            Expr::boxed(alloc, at, Node::Index(name, index))
        }
        Node::Deref(pointer) => {
            let pointer = copy_expr(alloc, pointer.get())?;
            Expr::boxed(alloc, at, Node::Deref(pointer))
        }
        Node::AddrName(name) => {
            let name = name.duplicate(alloc)?;
            Expr::boxed(alloc, at, Node::AddrName(name))
        }
        Node::AddrIndex(name, index) => {
            let index = copy_expr(alloc, index.get())?;
            let name = name.duplicate(alloc)?;
            Expr::boxed(alloc, at, Node::AddrIndex(name, index))
        }
        Node::Un(op, a) => {
            let a = copy_expr(alloc, a.get())?;
            Expr::boxed(alloc, at, Node::Un(*op, a))
        }
        Node::Bin(op, a, b) => {
            let a = copy_expr(alloc, a.get())?;
            let b = copy_expr(alloc, b.get())?;
            Expr::boxed(alloc, at, Node::Bin(*op, a, b))
        }
        Node::Cond(test, a, b) => {
            let test = copy_expr(alloc, test.get())?;
            let a = copy_expr(alloc, a.get())?;
            let b = copy_expr(alloc, b.get())?;
            Expr::boxed(alloc, at, Node::Cond(test, a, b))
        }
    }
}

impl Duplicate for Left {
    fn duplicate(&self, alloc: Global) -> Result<Left, NoMemory> {
        let at = self.at;
        match &self.node {
            LeftNode::Name(name) => {
                let node = LeftNode::Name(name.duplicate(alloc)?);
                Ok(Left { at, node })
            }
            LeftNode::Index(name, index) => {
                let name = name.duplicate(alloc)?;
                let node = LeftNode::Index(name, index.duplicate(alloc)?);
                Ok(Left { at, node })
            }
            LeftNode::Deref(pointer) => {
                let node = LeftNode::Deref(pointer.duplicate(alloc)?);
                Ok(Left { at, node })
            }
        }
    }
}

impl Duplicate for Value {
    fn duplicate(&self, alloc: Global) -> Result<Value, NoMemory> {
        match self {
            Value::Plain(expr) => Ok(Value::Plain(expr.duplicate(alloc)?)),
            Value::Call(at, name, arguments) => {
                let name = name.duplicate(alloc)?;
                Ok(Value::Call(*at, name, arguments.duplicate(alloc)?))
            }
            Value::FetchAdd(at, pointer, added) => {
                let pointer = pointer.duplicate(alloc)?;
                Ok(Value::FetchAdd(*at, pointer, added.duplicate(alloc)?))
            }
            Value::CompareSwap(at, pointer, old, new) => {
                let pointer = pointer.duplicate(alloc)?;
                let old = old.duplicate(alloc)?;
                Ok(Value::CompareSwap(*at, pointer, old, new.duplicate(alloc)?))
            }
        }
    }
}

impl Duplicate for Local {
    fn duplicate(&self, alloc: Global) -> Result<Local, NoMemory> {
        let name = self.name.duplicate(alloc)?;
        let value = self.value.duplicate(alloc)?;
        Ok(Local {
            at: self.at,
            pointer: self.pointer,
            name,
            value,
        })
    }
}

impl Duplicate for Stmt {
    fn duplicate(&self, alloc: Global) -> Result<Stmt, NoMemory> {
        self.copy(alloc)
    }
}

#[cycle(copy_stmt)]
fn copy_stmt(alloc: Global, stmt: &Stmt) -> Result<Boxed<Stmt>, NoMemory>
    ensures { IfOk result (λ copy. copy ≡ stmt.now) }
{
    let at = stmt.at;
    match &stmt.node {
        StmtNode::Empty => Stmt::boxed(alloc, at, StmtNode::Empty),
        StmtNode::Block(stmts) => {
            let stmts = copy_stmts(alloc, stmts.as_slice())?;
            Stmt::boxed(alloc, at, StmtNode::Block(Items::from_vec(stmts)))
        }
        StmtNode::Declare(locals) => {
            let locals = locals.duplicate(alloc)?;
            Stmt::boxed(alloc, at, StmtNode::Declare(locals))
        }
        StmtNode::DeclareThread(names) => {
            let names = names.duplicate(alloc)?;
            Stmt::boxed(alloc, at, StmtNode::DeclareThread(names))
        }
        StmtNode::Assign(left, value) => {
            let left = left.duplicate(alloc)?;
            let value = value.duplicate(alloc)?;
            Stmt::boxed(alloc, at, StmtNode::Assign(left, value))
        }
        StmtNode::Update(left, op, expr) => {
            let left = left.duplicate(alloc)?;
            let expr = expr.duplicate(alloc)?;
            Stmt::boxed(alloc, at, StmtNode::Update(left, *op, expr))
        }
        StmtNode::Do(value) => {
            let value = value.duplicate(alloc)?;
            Stmt::boxed(alloc, at, StmtNode::Do(value))
        }
        StmtNode::If(test, then, or_else) => {
            let then = copy_stmt(alloc, then.get())?;
            let or_else = copy_optional(alloc, or_else)?;
            copy_if(alloc, at, test, then, or_else)
        }
        StmtNode::While(test, body) => {
            let body = copy_stmt(alloc, body.get())?;
            let test = test.duplicate(alloc)?;
            Stmt::boxed(alloc, at, StmtNode::While(test, body))
        }
        StmtNode::DoWhile(body, test) => {
            let body = copy_stmt(alloc, body.get())?;
            let test = test.duplicate(alloc)?;
            Stmt::boxed(alloc, at, StmtNode::DoWhile(body, test))
        }
        StmtNode::For(first, test, step, body) => {
            let first = copy_optional(alloc, first)?;
            let step = copy_optional(alloc, step)?;
            let body = copy_stmt(alloc, body.get())?;
            let test = test.duplicate(alloc)?;
            Stmt::boxed(alloc, at, StmtNode::For(first, test, step, body))
        }
        StmtNode::Break => Stmt::boxed(alloc, at, StmtNode::Break),
        StmtNode::Continue => Stmt::boxed(alloc, at, StmtNode::Continue),
        StmtNode::Return(value) => {
            let value = value.duplicate(alloc)?;
            Stmt::boxed(alloc, at, StmtNode::Return(value))
        }
        StmtNode::Assert(test, text) => {
            let test = test.duplicate(alloc)?;
            let text = text.duplicate(alloc)?;
            Stmt::boxed(alloc, at, StmtNode::Assert(test, text))
        }
        StmtNode::Assume(test) => {
            let test = test.duplicate(alloc)?;
            Stmt::boxed(alloc, at, StmtNode::Assume(test))
        }
        StmtNode::Fence => Stmt::boxed(alloc, at, StmtNode::Fence),
        StmtNode::Lock(mutex) => {
            let mutex = mutex.duplicate(alloc)?;
            Stmt::boxed(alloc, at, StmtNode::Lock(mutex))
        }
        StmtNode::Unlock(mutex) => {
            let mutex = mutex.duplicate(alloc)?;
            Stmt::boxed(alloc, at, StmtNode::Unlock(mutex))
        }
        StmtNode::Start(thread, function) => {
            let thread = thread.duplicate(alloc)?;
            let function = function.duplicate(alloc)?;
            Stmt::boxed(alloc, at, StmtNode::Start(thread, function))
        }
        StmtNode::Join(thread) => {
            let thread = thread.duplicate(alloc)?;
            Stmt::boxed(alloc, at, StmtNode::Join(thread))
        }
        StmtNode::Goto(label) => {
            let label = label.duplicate(alloc)?;
            Stmt::boxed(alloc, at, StmtNode::Goto(label))
        }
        StmtNode::Label(label, stmt) => {
            let stmt = copy_stmt(alloc, stmt.get())?;
            let label = label.duplicate(alloc)?;
            Stmt::boxed(alloc, at, StmtNode::Label(label, stmt))
        }
        StmtNode::AtomBegin => Stmt::boxed(alloc, at, StmtNode::AtomBegin),
        StmtNode::AtomEnd => Stmt::boxed(alloc, at, StmtNode::AtomEnd),
    }
}

// The copy of an `if` whose branches are copied.
fn copy_if(
    alloc: Global,
    at: At,
    test: &Boxed<Expr>,
    then: Boxed<Stmt>,
    or_else: Option<Boxed<Stmt>>,
) -> Result<Boxed<Stmt>, NoMemory>
    ensures { IfOk result (λ copy. copy ≡ statement at (StmtNode.If test.now then or_else)) }
{
    let test = test.duplicate(alloc)?;
    Stmt::boxed(alloc, at, StmtNode::If(test, then, or_else))
}

#[cycle(copy_stmt)]
fn copy_optional(alloc: Global, stmt: &Option<Boxed<Stmt>>) -> Result<Option<Boxed<Stmt>>, NoMemory>
    ensures { IfOk result (λ copy. copy ≡ stmt.now) }
{
    match stmt {
        Some(stmt) => Ok(Some(copy_stmt(alloc, stmt.get())?)),
        None => Ok(None),
    }
}

#[cycle(copy_stmt)]
fn copy_stmts(alloc: Global, stmts: &[Stmt]) -> Result<Vec<Stmt>, NoMemory>
    ensures { IfOk result (λ copy. copy.items ≡ stmts.now) }
{
    let mut copy = Vec::new(alloc);
    for stmt in stmts {
        copy.push(copy_stmt(alloc, stmt)?.into_inner())?;
    }
    Ok(copy)
}

impl Duplicate for Param {
    fn duplicate(&self, alloc: Global) -> Result<Param, NoMemory> {
        let name = self.name.duplicate(alloc)?;
        Ok(Param {
            pointer: self.pointer,
            name,
        })
    }
}

impl Duplicate for item::Global {
    fn duplicate(&self, alloc: Global) -> Result<item::Global, NoMemory> {
        let name = self.name.duplicate(alloc)?;
        let init = self.init.duplicate(alloc)?;
        Ok(item::Global {
            at: self.at,
            pointer: self.pointer,
            name,
            len: self.len,
            init,
        })
    }
}

impl Duplicate for Item {
    fn duplicate(&self, alloc: Global) -> Result<Item, NoMemory> {
        match self {
            Item::Globals(globals) => Ok(Item::Globals(globals.duplicate(alloc)?)),
            Item::Mutexes(names) => Ok(Item::Mutexes(names.duplicate(alloc)?)),
            Item::Threads(names) => Ok(Item::Threads(names.duplicate(alloc)?)),
            Item::InputDecl(at, name) => Ok(Item::InputDecl(*at, name.duplicate(alloc)?)),
            Item::Function {
                at,
                gives,
                name,
                params,
                body,
            } => {
                let name = name.duplicate(alloc)?;
                let params = params.duplicate(alloc)?;
                let body = body.duplicate(alloc)?;
                Ok(Item::Function {
                    at: *at,
                    gives: *gives,
                    name,
                    params,
                    body,
                })
            }
        }
    }
}
