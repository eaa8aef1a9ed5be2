//! What the statements of a text mention.
ghost use Rattle.std.specs.Prelude.{◌≡◌, [], ◌∷◌, ◌++◌, map, option_map, IfOk, OnOk};
ghost use Rattle.std.specs.List.{flat_map};
ghost use Rattle.mm_flow.specs.declared.mentions.Mention.TheVariants as said;
ghost use Rattle.mm_flow.specs.Text.{labels, labels_in, mentions, mentions_of, of_local, of_optional, of_parts, of_value, or_none};

use crate::names::Started;
use mm_goto::{Ident, NoMemory};
use mm_tree::{Local, Stmt, StmtNode, Value};
use sqlite_items::{Boxed, Items};
use std::alloc::Global;

/// What a statement mentions.
#[derive(Drop)]
pub enum Mention {
    Assertion,
    Create(Started),
    Label(Ident),
    /// A call of a function.
    Call(Ident),
}

fn note(out: &mut Vec<Mention>, mention: Mention) -> Result<(), NoMemory>
    ensures { OnOk result (out.new.items ≡ out.old.items ++ mention ∷ []) }
{
    out.push(mention)?;
    Ok(())
}

fn note_value(alloc: Global, out: &mut Vec<Mention>, v: &Value) -> Result<(), NoMemory>
    ensures { OnOk result (out.new.items ≡ out.old.items ++ of_value v.now) }
{
    match v {
        Value::Call(_, f, _) => note(out, Mention::Call(Ident::copy_of(alloc, f.text())?)),
        Value::Plain(_) | Value::FetchAdd(_, _, _) | Value::CompareSwap(_, _, _, _) => Ok(()),
    }
}

fn note_optional(
    alloc: Global,
    out: &mut Vec<Mention>,
    v: &Option<Boxed<Value>>,
) -> Result<(), NoMemory>
    ensures { OnOk result (out.new.items ≡ out.old.items ++ of_optional v.now) }
{
    match v {
        Some(v) => note_value(alloc, out, v.get()),
        None => Ok(()),
    }
}

fn note_locals(alloc: Global, out: &mut Vec<Mention>, locals: &[Local]) -> Result<(), NoMemory>
    ensures { OnOk result (out.new.items ≡ out.old.items ++ flat_map of_local locals.now) }
{
    for local in locals {
        note_optional(alloc, out, &local.value)?;
    }
    Ok(())
}

fn note_create(
    alloc: Global,
    out: &mut Vec<Mention>,
    variable: &Ident,
    function: &Ident,
) -> Result<(), NoMemory>
    ensures { OnOk result (out.new.items ≡ out.old.items ++ said.Create (record { variable = variable.now; function = function.now }) ∷ []) }
{
    let variable = Ident::copy_of(alloc, variable.text())?;
    let function = Ident::copy_of(alloc, function.text())?;
    note(out, Mention::Create(Started { variable, function }))
}

#[cycle(note_stmt)]
fn note_optional_stmt(
    alloc: Global,
    out: &mut Vec<Mention>,
    s: &Option<Boxed<Stmt>>,
) -> Result<(), NoMemory>
    ensures { OnOk result (out.new.items ≡ out.old.items ++ or_none (option_map mentions_of s.now)) }
{
    match s {
        Some(s) => note_stmt(alloc, out, s.get()),
        None => Ok(()),
    }
}

#[cycle(note_stmt)]
fn note_stmts(alloc: Global, out: &mut Vec<Mention>, ss: &[Stmt]) -> Result<(), NoMemory>
    ensures { OnOk result (out.new.items ≡ out.old.items ++ of_parts (map mentions_of ss.now)) }
{
    for s in ss {
        note_stmt(alloc, out, s)?;
    }
    Ok(())
}

#[cycle(note_stmt)]
fn note_block(alloc: Global, out: &mut Vec<Mention>, ss: &Items<Stmt>) -> Result<(), NoMemory>
    ensures { OnOk result (out.new.items ≡ out.old.items ++ of_parts (map mentions_of ss.now)) }
{
    note_stmts(alloc, out, ss.as_slice())
}

#[cycle(note_stmt)]
#[tactic(auto, unfolding(crate::specs::Text::mentions_of))]
fn note_stmt(alloc: Global, out: &mut Vec<Mention>, s: &Stmt) -> Result<(), NoMemory>
    ensures { OnOk result (out.new.items ≡ out.old.items ++ mentions_of s.now) }
{
    match &s.node {
        StmtNode::Block(ss) => note_block(alloc, out, ss),
        StmtNode::Declare(locals) => note_locals(alloc, out, locals.items()),
        StmtNode::Assign(_, v) => note_value(alloc, out, v.get()),
        StmtNode::Do(v) => note_value(alloc, out, v.get()),
        StmtNode::Return(v) => note_optional(alloc, out, v),
        StmtNode::If(_, a, b) => {
            note_stmt(alloc, out, a.get())?;
            note_optional_stmt(alloc, out, b)
        }
        StmtNode::While(_, a) => note_stmt(alloc, out, a.get()),
        StmtNode::DoWhile(a, _) => note_stmt(alloc, out, a.get()),
        StmtNode::For(first, _, step, a) => {
            note_optional_stmt(alloc, out, first)?;
            note_optional_stmt(alloc, out, step)?;
            note_stmt(alloc, out, a.get())
        }
        StmtNode::Assert(_, _) => note(out, Mention::Assertion),
        StmtNode::Start(variable, function) => note_create(
            alloc,
            out,
            &variable.name,
            &function.name,
        ),
        StmtNode::Label(name, a) => {
            note(
                out,
                Mention::Label(Ident::copy_of(alloc, name.name.text())?),
            )?;
            note_stmt(alloc, out, a.get())
        }
        StmtNode::Empty
        | StmtNode::DeclareThread(_)
        | StmtNode::Update(_, _, _)
        | StmtNode::Break
        | StmtNode::Continue
        | StmtNode::Assume(_)
        | StmtNode::Fence
        | StmtNode::Lock(_)
        | StmtNode::Unlock(_)
        | StmtNode::Join(_)
        | StmtNode::Goto(_)
        | StmtNode::AtomBegin
        | StmtNode::AtomEnd => Ok(()),
    }
}

/// What the statements of a body mention, in the order of the text.
pub fn mentions(alloc: Global, body: &[Stmt]) -> Result<Vec<Mention>, NoMemory>
    ensures { IfOk result (λ ms. ms.items ≡ mentions body.now) }
{
    let mut out = Vec::new(alloc);
    note_stmts(alloc, &mut out, body)?;
    Ok(out)
}

fn label(alloc: Global, names: &mut Vec<Ident>, mention: &Mention) -> Result<(), NoMemory>
    ensures { OnOk result (names.new.items ≡ names.old.items ++ labels (mention.now ∷ [])) }
{
    match mention {
        Mention::Label(name) => {
            names.push(Ident::copy_of(alloc, name.text())?)?;
            Ok(())
        }
        Mention::Assertion | Mention::Create(_) | Mention::Call(_) => Ok(()),
    }
}

/// The labels in a body.
pub fn labels_in(alloc: Global, body: &[Stmt]) -> Result<Vec<Ident>, NoMemory>
    ensures { IfOk result (λ names. names.items ≡ labels_in body.now) }
{
    let mentions = mentions(alloc, body)?;
    let mut names = Vec::new(alloc);
    for mention in &mentions {
        label(alloc, &mut names, mention)?;
    }
    Ok(names)
}
