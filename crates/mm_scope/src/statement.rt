ghost use Rattle.std.specs.Prelude.{◌≡◌, OnOk, is_some, map};
ghost use Rattle.std.specs.Option.{option_map};
ghost use Rattle.mm_scope.specs.Scopes.{meaning_in};
ghost use Rattle.mm_scope.specs.Steps.{after};
ghost use Rattle.mm_scope.specs.Statements.{noted_goto, all_at, if_some, block, said_node, said_stmt};

use crate::around::{Around, guarded, in_loop, inner};
use crate::assertion::note_assertion;
use crate::declare::{declare_locals, declare_threads};
use crate::fault::Rule;
use crate::part::{
    note_assign, note_expr, note_jump, note_output_only, note_return, note_test, note_update,
    note_value,
};
use crate::table::Table;
use crate::thread::{note_mutex, note_start, note_thread};
use crate::walk::Walk;
use mm_goto::{At, NoMemory};
use mm_tree::{Item, Side, Stmt, StmtNode, Word};
use sqlite_items::Boxed;

#[tactic(auto, unfolding(crate::specs::Steps::after, crate::specs::Statements::noted_goto), using(crate::proofs::Steps::seams))]
fn note_goto(walk: &mut Walk<'_>, around: Around, labels: &Table<'_>, at: At, word: &Word)
    ensures { walk.new ≡ after (noted_goto around labels.now at word.now) walk.old }
{
    match around.side {
        Side::Source => walk.notes.refuse(Rule::OutputOnly, at),
        Side::Output => {}
    }
    if labels.meaning_of(word.name.text()).is_none() {
        walk.notes.refuse(Rule::UnknownName, word.at);
    }
}

/// Reads a statement. The labels are those of its function.
#[cycle(statement)]
fn read_stmt<'a>(
    walk: &mut Walk<'a>,
    items: &[Item],
    labels: &Table<'_>,
    around: Around,
    stmt: &'a Stmt,
) -> Result<(), NoMemory>
    ensures { OnOk result (walk.new ≡ after (said_stmt items.now labels.now stmt.now around) walk.old) }
{
    read_node(walk, items, labels, around, stmt.at, &stmt.node)
}

#[cycle(statement)]
#[tactic(auto, using(crate::proofs::Steps::in_blocks))]
pub fn read_all<'a>(
    walk: &mut Walk<'a>,
    items: &[Item],
    labels: &Table<'_>,
    around: Around,
    stmts: &'a [Stmt],
) -> Result<(), NoMemory>
    ensures { OnOk result (walk.new ≡ after (all_at around (map (said_stmt items.now labels.now) stmts.now)) walk.old) }
{
    for stmt in stmts {
        read_stmt(walk, items, labels, around, stmt)?;
    }
    Ok(())
}

#[cycle(statement)]
#[tactic(auto, using(crate::proofs::Steps::in_steps))]
fn read_optional<'a>(
    walk: &mut Walk<'a>,
    items: &[Item],
    labels: &Table<'_>,
    around: Around,
    stmt: &'a Option<Boxed<Stmt>>,
) -> Result<(), NoMemory>
    ensures { OnOk result (walk.new ≡ after (if_some around (option_map (said_stmt items.now labels.now) stmt.now)) walk.old) }
{
    match stmt {
        Some(stmt) => read_stmt(walk, items, labels, around, stmt.get()),
        None => Ok(()),
    }
}

#[cycle(statement)]
#[tactic(auto, using(crate::proofs::Steps::in_statements))]
fn read_block<'a>(
    walk: &mut Walk<'a>,
    items: &[Item],
    labels: &Table<'_>,
    around: Around,
    stmts: &'a [Stmt],
) -> Result<(), NoMemory>
    ensures { OnOk result (walk.new ≡ after (block around (map (said_stmt items.now labels.now) stmts.now)) walk.old) }
{
    let from = walk.scope.len();
    read_all(walk, items, labels, inner(around, from), stmts)?;
    walk.leave(from);
    Ok(())
}

#[cycle(statement)]
#[tactic(auto, unfolding(crate::specs::Statements::choice, crate::specs::Statements::while_loop, crate::specs::Statements::do_loop), using(crate::proofs::Steps::in_statements))]
fn read_node<'a>(
    walk: &mut Walk<'a>,
    items: &[Item],
    labels: &Table<'_>,
    around: Around,
    at: At,
    node: &'a StmtNode,
) -> Result<(), NoMemory>
    ensures { OnOk result (walk.new ≡ after (said_node items.now labels.now node.now at around) walk.old) }
{
    match node {
        StmtNode::Empty => Ok(()),
        StmtNode::Block(stmts) => read_block(walk, items, labels, around, stmts.as_slice()),
        StmtNode::Declare(locals) => declare_locals(walk, items, around, locals.items()),
        StmtNode::DeclareThread(words) => declare_threads(walk, around, words.items()),
        StmtNode::Assign(left, value) => note_assign(walk, items, around, left.get(), value.get()),
        StmtNode::Update(left, _, e) => {
            note_update(walk, left.get(), e.get());
            Ok(())
        }
        StmtNode::Do(value) => note_value(walk, items, around, None, value.get()),
        StmtNode::If(test, then, or_else) => {
            note_expr(walk, test.get());
            read_stmt(walk, items, labels, guarded(around), then.get())?;
            read_optional(walk, items, labels, guarded(around), or_else)
        }
        StmtNode::While(test, body) => {
            note_expr(walk, test.get());
            read_stmt(walk, items, labels, in_loop(around), body.get())
        }
        StmtNode::DoWhile(body, test) => {
            read_stmt(walk, items, labels, in_loop(around), body.get())?;
            note_expr(walk, test.get());
            Ok(())
        }
        StmtNode::For(first, test, next, body) => {
            let from = walk.scope.len();
            let inside = inner(around, from);
            read_optional(walk, items, labels, inside, first)?;
            note_test(walk, test);
            read_optional(walk, items, labels, inside, next)?;
            read_stmt(walk, items, labels, in_loop(inside), body.get())?;
            walk.leave(from);
            Ok(())
        }
        StmtNode::Break => {
            note_jump(walk, around, at);
            Ok(())
        }
        StmtNode::Continue => {
            note_jump(walk, around, at);
            Ok(())
        }
        StmtNode::Return(Some(value)) => note_return(walk, items, around, value.get()),
        StmtNode::Return(None) => Ok(()),
        StmtNode::Assert(e, text) => {
            note_assertion(walk, around.side, at, e.get(), text);
            Ok(())
        }
        StmtNode::Assume(e) => {
            note_expr(walk, e.get());
            Ok(())
        }
        StmtNode::Fence => Ok(()),
        StmtNode::Lock(word) => {
            note_mutex(walk, word);
            Ok(())
        }
        StmtNode::Unlock(word) => {
            note_mutex(walk, word);
            Ok(())
        }
        StmtNode::Start(word, body) => note_start(walk, items, around, at, word, body),
        StmtNode::Join(word) => note_thread(walk, around, None, at, word),
        StmtNode::Goto(word) => {
            note_goto(walk, around, labels, at, word);
            Ok(())
        }
        StmtNode::Label(_, stmt) => read_stmt(walk, items, labels, around, stmt.get()),
        StmtNode::AtomBegin => {
            note_output_only(walk, around.side, at);
            Ok(())
        }
        StmtNode::AtomEnd => {
            note_output_only(walk, around.side, at);
            Ok(())
        }
    }
}
