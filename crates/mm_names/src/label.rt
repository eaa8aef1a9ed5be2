//! The labels of a function.
ghost use Rattle.std.specs.Prelude.{◌≡◌, ◌∷◌, [], OnOk, map};
ghost use Rattle.std.specs.Option.{option_map};
ghost use Rattle.mm_scope.specs.Notes.{all_noted};
ghost use Rattle.mm_scope.specs.Steps.{reserved};
ghost use Rattle.mm_scope.specs.Parts.{output_only};
ghost use Rattle.mm_names.specs.Labels.{labels_in, labels_in_node, if_any, all_labels, twice_if, labelled};

use mm_goto::{At, Ident, NoMemory};
use mm_scope::{Meaning, Notes, Rule, Table, is_reserved};
use mm_tree::{Side, Stmt, StmtNode, Word};
use sqlite_items::Boxed;

#[tactic(auto, unfolding(mm_scope::specs::Steps::reserved))]
fn note_reserved(side: Side, at: At, name: &Ident, notes: &mut Notes<'_>)
    ensures { notes.new ≡ all_noted notes.old (reserved side at name.now) }
{
    if is_reserved(side, name) {
        notes.refuse(Rule::ReservedName, at);
    }
}

fn note_output_only(side: Side, at: At, notes: &mut Notes<'_>)
    ensures { notes.new ≡ all_noted notes.old (output_only side at) }
{
    match side {
        Side::Source => notes.refuse(Rule::OutputOnly, at),
        Side::Output => {}
    }
}

fn note_twice(twice: bool, at: At, notes: &mut Notes<'_>)
    ensures { notes.new ≡ all_noted notes.old (twice_if twice at) }
{
    if twice {
        notes.refuse(Rule::TwiceDeclared, at);
    }
}

/// Declares a label.
#[tactic(auto, unfolding(crate::specs::Labels::labelled, crate::specs::Labels::labels_notes), using(crate::proofs::Labelling::seams))]
fn note_label<'a>(
    labels: &mut Table<'a>,
    notes: &mut Notes<'a>,
    side: Side,
    word: &'a Word,
) -> Result<(), NoMemory>
    ensures { OnOk result ((labels.new, notes.new) ≡ labelled side (word.now ∷ []) (labels.old, notes.old)) }
{
    note_reserved(side, word.at, &word.name, notes);
    note_output_only(side, word.at, notes);
    note_twice(
        labels.meaning_of(word.name.text()).is_some(),
        word.at,
        notes,
    );
    labels.set(word.name.text(), Meaning::Label)
}

/// Declares the labels of a statement and of those in it.
#[cycle(labels)]
fn label_stmt<'a>(
    labels: &mut Table<'a>,
    notes: &mut Notes<'a>,
    side: Side,
    stmt: &'a Stmt,
) -> Result<(), NoMemory>
    ensures { OnOk result ((labels.new, notes.new) ≡ labelled side (labels_in stmt.now) (labels.old, notes.old)) }
{
    label_node(labels, notes, side, &stmt.node)
}

/// Declares the labels of statements and of those in them.
#[cycle(labels)]
#[tactic(auto, using(crate::proofs::Labelling::in_blocks))]
pub fn label_all<'a>(
    labels: &mut Table<'a>,
    notes: &mut Notes<'a>,
    side: Side,
    stmts: &'a [Stmt],
) -> Result<(), NoMemory>
    ensures { OnOk result ((labels.new, notes.new) ≡ labelled side (all_labels (map labels_in stmts.now)) (labels.old, notes.old)) }
{
    for stmt in stmts {
        label_stmt(labels, notes, side, stmt)?;
    }
    Ok(())
}

#[cycle(labels)]
#[tactic(auto, using(crate::proofs::Labelling::in_labels))]
fn label_optional<'a>(
    labels: &mut Table<'a>,
    notes: &mut Notes<'a>,
    side: Side,
    stmt: &'a Option<Boxed<Stmt>>,
) -> Result<(), NoMemory>
    ensures { OnOk result ((labels.new, notes.new) ≡ labelled side (if_any (option_map labels_in stmt.now)) (labels.old, notes.old)) }
{
    match stmt {
        Some(stmt) => label_stmt(labels, notes, side, stmt.get()),
        None => Ok(()),
    }
}

#[cycle(labels)]
#[tactic(auto, using(crate::proofs::Labelling::in_statements))]
fn label_node<'a>(
    labels: &mut Table<'a>,
    notes: &mut Notes<'a>,
    side: Side,
    node: &'a StmtNode,
) -> Result<(), NoMemory>
    ensures { OnOk result ((labels.new, notes.new) ≡ labelled side (labels_in_node node.now) (labels.old, notes.old)) }
{
    match node {
        StmtNode::Block(stmts) => label_all(labels, notes, side, stmts.as_slice()),
        StmtNode::If(_, then, or_else) => {
            label_stmt(labels, notes, side, then.get())?;
            label_optional(labels, notes, side, or_else)
        }
        StmtNode::While(_, body) => label_stmt(labels, notes, side, body.get()),
        StmtNode::DoWhile(body, _) => label_stmt(labels, notes, side, body.get()),
        StmtNode::For(first, _, next, body) => {
            label_optional(labels, notes, side, first)?;
            label_optional(labels, notes, side, next)?;
            label_stmt(labels, notes, side, body.get())
        }
        StmtNode::Label(word, stmt) => {
            note_label(labels, notes, side, word)?;
            label_stmt(labels, notes, side, stmt.get())
        }
        _ => Ok(()),
    }
}
