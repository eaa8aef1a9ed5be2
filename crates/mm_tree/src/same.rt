ghost use Rattle.std.specs.Prelude.{◌≡◌, ◌↔◌, IsTrue, map};
ghost use Rattle.std.specs.Option.{option_map};
ghost use Rattle.mm_tree.specs.Places.{bare_word, bare_expr, bare_left_node, bare_left, bare_value, bare_local, bare_stmt, bare_param, bare_global, bare_item, without_places};

use crate::expr::{Expr, Node, Word};
use crate::item::{Global, Item, Param, Tree};
use crate::stmt::{Left, LeftNode, Local, Stmt, StmtNode, Value};
use mm_goto::{Ident, List};
use sqlite_items::{Boxed, Items};

/// A part of a tree that is compared without its places.
trait Same {
    /// The part without its places.
    ghost bare: { Self → Self };

    /// Whether the two are equal but for their places.
    fn same(&self, other: &Self) -> bool
        ensures { IsTrue result ↔ (bare self.now ≡ bare other.now) };
}

impl Tree {
    /// Whether the two trees are equal but for their places.
    pub fn same(&self, other: &Tree) -> bool
        ensures { IsTrue result ↔ (without_places self.now ≡ without_places other.now) }
    {
        self.items.same(&other.items)
    }
}

#[tactic(auto, using(crate::proofs::Lists::same_at))]
fn same_all<T: Same>(all: &[T], others: &[T]) -> bool
    ensures { IsTrue result ↔ (map T.bare all.now ≡ map T.bare others.now) }
{
    if all.len() != others.len() {
        return false;
    }
    for (i, part) in all.iter().enumerate() {
        if !part.same(&others[i]) {
            return false;
        }
    }
    true
}

impl<T: Same> Same for List<T> {
    ghost bare = { map T.bare };

    fn same(&self, other: &List<T>) -> bool {
        same_all(self.items(), other.items())
    }
}

impl<T: Same> Same for Option<T> {
    ghost bare = { option_map T.bare };

    fn same(&self, other: &Option<T>) -> bool {
        match (self, other) {
            (Some(part), Some(other)) => part.same(other),
            (None, None) => true,
            _ => false,
        }
    }
}

impl<T: Same> Same for Boxed<T> {
    ghost bare = { T.bare };

    fn same(&self, other: &Boxed<T>) -> bool {
        self.get().same(other.get())
    }
}

impl Same for Ident {
    ghost bare = { λ name. name };

    fn same(&self, other: &Ident) -> bool {
        self.text() == other.text()
    }
}

impl Same for Word {
    ghost bare = { bare_word };

    fn same(&self, other: &Word) -> bool {
        self.name.same(&other.name)
    }
}

impl Same for Expr {
    ghost bare = { bare_expr };

    #[tactic(auto, using(crate::proofs::Layers::expr_layers))]
    fn same(&self, other: &Expr) -> bool {
        match (&self.node, &other.node) {
            (Node::Number(n), Node::Number(m)) => n == m,
            (Node::Null, Node::Null) => true,
            (Node::Name(x), Node::Name(y)) => x.same(y),
            (Node::Index(x, e), Node::Index(y, f)) => x.same(y) && e.get().same(f.get()),
            (Node::Deref(e), Node::Deref(f)) => e.get().same(f.get()),
            (Node::AddrName(x), Node::AddrName(y)) => x.same(y),
            (Node::AddrIndex(x, e), Node::AddrIndex(y, f)) => x.same(y) && e.get().same(f.get()),
            (Node::Un(op, e), Node::Un(other, f)) => op == other && e.get().same(f.get()),
            (Node::Bin(op, a, b), Node::Bin(other, c, d)) => {
                op == other && a.get().same(c.get()) && b.get().same(d.get())
            }
            (Node::Cond(test, a, b), Node::Cond(other, c, d)) => {
                test.get().same(other.get()) && a.get().same(c.get()) && b.get().same(d.get())
            }
            _ => false,
        }
    }
}

impl Same for LeftNode {
    ghost bare = { bare_left_node };

    fn same(&self, other: &LeftNode) -> bool {
        match (self, other) {
            (LeftNode::Name(x), LeftNode::Name(y)) => x.same(y),
            (LeftNode::Index(x, e), LeftNode::Index(y, f)) => x.same(y) && e.same(f),
            (LeftNode::Deref(e), LeftNode::Deref(f)) => e.same(f),
            _ => false,
        }
    }
}

impl Same for Left {
    ghost bare = { bare_left };

    fn same(&self, other: &Left) -> bool {
        self.node.same(&other.node)
    }
}

impl Same for Value {
    ghost bare = { bare_value };

    fn same(&self, other: &Value) -> bool {
        match (self, other) {
            (Value::Plain(e), Value::Plain(f)) => e.same(f),
            (Value::Call(_, x, es), Value::Call(_, y, fs)) => x.same(y) && es.same(fs),
            (Value::FetchAdd(_, p, e), Value::FetchAdd(_, q, f)) => p.same(q) && e.same(f),
            (Value::CompareSwap(_, p, a, b), Value::CompareSwap(_, q, c, d)) => {
                p.same(q) && a.same(c) && b.same(d)
            }
            _ => false,
        }
    }
}

impl Same for Local {
    ghost bare = { bare_local };

    fn same(&self, other: &Local) -> bool {
        self.pointer == other.pointer
            && self.name.same(&other.name)
            && self.value.same(&other.value)
    }
}

impl Same for Stmt {
    ghost bare = { bare_stmt };

    #[cycle(same_stmt)]
    #[tactic(auto, using(crate::proofs::Layers::stmt_layers))]
    fn same(&self, other: &Stmt) -> bool {
        match (&self.node, &other.node) {
            (StmtNode::Empty, StmtNode::Empty) => true,
            (StmtNode::Block(ss), StmtNode::Block(ts)) => same_block(ss, ts),
            (StmtNode::Declare(xs), StmtNode::Declare(ys)) => xs.same(ys),
            (StmtNode::DeclareThread(xs), StmtNode::DeclareThread(ys)) => xs.same(ys),
            (StmtNode::Assign(x, v), StmtNode::Assign(y, w)) => x.same(y) && v.same(w),
            (StmtNode::Update(x, op, e), StmtNode::Update(y, other, f)) => {
                x.same(y) && op == other && e.same(f)
            }
            (StmtNode::Do(v), StmtNode::Do(w)) => v.same(w),
            (StmtNode::If(e, a, b), StmtNode::If(f, c, d)) => {
                e.same(f) && a.get().same(c.get()) && same_optional(b, d)
            }
            (StmtNode::While(e, s), StmtNode::While(f, t)) => e.same(f) && s.get().same(t.get()),
            (StmtNode::DoWhile(s, e), StmtNode::DoWhile(t, f)) => {
                s.get().same(t.get()) && e.same(f)
            }
            (StmtNode::For(i, e, j, s), StmtNode::For(k, f, l, t)) => {
                same_optional(i, k) && e.same(f) && same_optional(j, l) && s.get().same(t.get())
            }
            (StmtNode::Break, StmtNode::Break) => true,
            (StmtNode::Continue, StmtNode::Continue) => true,
            (StmtNode::Return(v), StmtNode::Return(w)) => v.same(w),
            (StmtNode::Assert(e, x), StmtNode::Assert(f, y)) => e.same(f) && x.same(y),
            (StmtNode::Assume(e), StmtNode::Assume(f)) => e.same(f),
            (StmtNode::Fence, StmtNode::Fence) => true,
            (StmtNode::Lock(x), StmtNode::Lock(y)) => x.same(y),
            (StmtNode::Unlock(x), StmtNode::Unlock(y)) => x.same(y),
            (StmtNode::Start(x, f), StmtNode::Start(y, g)) => x.same(y) && f.same(g),
            (StmtNode::Join(x), StmtNode::Join(y)) => x.same(y),
            (StmtNode::Goto(x), StmtNode::Goto(y)) => x.same(y),
            (StmtNode::Label(x, s), StmtNode::Label(y, t)) => x.same(y) && s.get().same(t.get()),
            (StmtNode::AtomBegin, StmtNode::AtomBegin) => true,
            (StmtNode::AtomEnd, StmtNode::AtomEnd) => true,
            _ => false,
        }
    }
}

#[cycle(same_stmt)]
fn same_block(block: &Items<Stmt>, other: &Items<Stmt>) -> bool
    ensures { IsTrue result ↔ (map bare_stmt block.now ≡ map bare_stmt other.now) }
{
    same_stmts(block.as_slice(), other.as_slice())
}

#[cycle(same_stmt)]
#[tactic(auto, using(crate::proofs::Lists::same_at))]
fn same_stmts(stmts: &[Stmt], others: &[Stmt]) -> bool
    ensures { IsTrue result ↔ (map bare_stmt stmts.now ≡ map bare_stmt others.now) }
{
    if stmts.len() != others.len() {
        return false;
    }
    for (i, stmt) in stmts.iter().enumerate() {
        if !stmt.same(&others[i]) {
            return false;
        }
    }
    true
}

#[cycle(same_stmt)]
fn same_optional(stmt: &Option<Boxed<Stmt>>, other: &Option<Boxed<Stmt>>) -> bool
    ensures { IsTrue result ↔ (option_map bare_stmt stmt.now ≡ option_map bare_stmt other.now) }
{
    match (stmt, other) {
        (Some(stmt), Some(other)) => stmt.get().same(other.get()),
        (None, None) => true,
        _ => false,
    }
}

impl Same for Param {
    ghost bare = { bare_param };

    fn same(&self, other: &Param) -> bool {
        self.pointer == other.pointer && self.name.same(&other.name)
    }
}

impl Same for Global {
    ghost bare = { bare_global };

    fn same(&self, other: &Global) -> bool {
        self.pointer == other.pointer
            && self.name.same(&other.name)
            && self.len == other.len
            && self.init.same(&other.init)
    }
}

impl Same for Item {
    ghost bare = { bare_item };

    fn same(&self, other: &Item) -> bool {
        match (self, other) {
            (Item::Globals(xs), Item::Globals(ys)) => xs.same(ys),
            (Item::Mutexes(xs), Item::Mutexes(ys)) => xs.same(ys),
            (Item::Threads(xs), Item::Threads(ys)) => xs.same(ys),
            (Item::InputDecl(_, x), Item::InputDecl(_, y)) => x.same(y),
            (
                Item::Function {
                    at: _,
                    gives,
                    name,
                    params,
                    body,
                },
                Item::Function {
                    at: _,
                    gives: other_gives,
                    name: other_name,
                    params: other_params,
                    body: other_body,
                },
            ) => {
                gives == other_gives
                    && name.same(other_name)
                    && params.same(other_params)
                    && body.same(other_body)
            }
            _ => false,
        }
    }
}
