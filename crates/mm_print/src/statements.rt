ghost use Rattle.std.specs.Prelude.{◌≡◌, ◌+◌, ◌++◌, OnOk, IfOk, [], ◌∷◌, map, codes, string_bytes};
ghost use Rattle.std.specs.Option.{option_map};
ghost use Rattle.mm_parse_expr.specs.declared.symbol.Keyword.TheVariants as keyword;
ghost use Rattle.mm_parse_expr.specs.declared.symbol.Symbol.TheVariants as symbol;
ghost use Rattle.mm_print.specs.Pieces.{Piece, text, piece_text, semicolon};
ghost use Rattle.mm_print.specs.Statements.{layout, stmt_pieces, lines, braces, otherwise, first_part, test_part, step_part, declared};

use crate::expressions::put_expr;
use crate::lists::{Listed, put_listed};
use crate::parts::{
    put_assert, put_assign, put_assume, put_bare, put_before, put_join, put_mutex_call, put_return,
    put_start, put_tested, put_update, put_value,
};
use crate::words::keyword_text;
use mm_goto::NoMemory;
use mm_goto::text::put;
use mm_parse_expr::Keyword;
use mm_tree::{Expr, Stmt, StmtNode};
use sqlite_items::Boxed;
use std::alloc::Global;

/// So many blocks may be open at most.
const MAX_DEPTH: u32 = 10_000;

#[tactic(auto, using(crate::proofs::Texts::indent_more))]
fn put_line(out: &mut String, depth: u32) -> Result<(), NoMemory>
    ensures { OnOk result (string_bytes out.new ≡ string_bytes out.old ++ piece_text (Piece.line depth)) }
{
    put(out, "\n")?;
    for level in 0..depth {
        put(out, "  ")?;
    }
    Ok(())
}

/// Writes the word behind which parts are declared, and these.
#[tactic(auto, using(crate::proofs::Texts::text_append))]
pub fn put_declared<T: Listed>(
    alloc: Global,
    out: &mut String,
    word: Keyword,
    parts: &[T],
) -> Result<(), NoMemory>
    ensures { OnOk result (string_bytes out.new ≡ string_bytes out.old ++ text (declared word (map T.pieces parts.now))) }
{
    put_before(out, word)?;
    put_listed(alloc, out, parts)
}

fn put_goto(out: &mut String, label: &str) -> Result<(), NoMemory>
    ensures { OnOk result (string_bytes out.new ≡ string_bytes out.old ++ text (Piece.word keyword.Goto ∷ Piece.blank ∷ Piece.name label.now ∷ [])) }
{
    put_before(out, Keyword::Goto)?;
    put(out, label)
}

fn put_label(out: &mut String, label: &str) -> Result<(), NoMemory>
    ensures { OnOk result (string_bytes out.new ≡ string_bytes out.old ++ (label.now ++ codes ": ")) }
{
    put(out, label)?;
    put(out, ": ")
}

// The word of a loop with three parts, and the parenthesis that opens them.
fn put_for(out: &mut String) -> Result<(), NoMemory>
    ensures { OnOk result (string_bytes out.new ≡ string_bytes out.old ++ text (Piece.word keyword.For ∷ Piece.blank ∷ Piece.mark symbol.Open ∷ [])) }
{
    put_before(out, Keyword::For)?;
    put(out, "(")
}

// The condition of such a loop, between its semicolons.
#[tactic(auto, using(crate::proofs::Texts::text_append))]
fn put_test_part(
    alloc: Global,
    out: &mut String,
    test: &Option<Boxed<Expr>>,
) -> Result<(), NoMemory>
    ensures { OnOk result (string_bytes out.new ≡ string_bytes out.old ++ text (Piece.mark symbol.Semicolon ∷ test_part test.now ++ semicolon)) }
{
    match test {
        None => put(out, ";;"),
        Some(test) => {
            put(out, "; ")?;
            put_expr(alloc, out, test.get())?;
            put(out, ";")
        }
    }
}

// How many blocks are open in the next one: so deep a stack is memory.
fn deeper(depth: u32) -> Result<u32, NoMemory>
    ensures { IfOk result (λ inner. inner ≡ depth + 1) }
{
    if depth < MAX_DEPTH {
        Ok(depth + 1)
    } else {
        Err(NoMemory)
    }
}

/// Whether a semicolon ends the statement.
#[tactic(auto, unfolding(crate::specs::Statements::layout))]
fn is_simple(stmt: &Stmt) -> bool
    ensures { result ≡ (layout stmt.now).simple }
{
    !matches!(
        &stmt.node,
        StmtNode::Block(_)
            | StmtNode::If(_, _, _)
            | StmtNode::While(_, _)
            | StmtNode::For(_, _, _, _)
            | StmtNode::Label(_, _)
    )
}

/// Writes a statement, with so many blocks open.
#[cycle(statement)]
#[tactic(auto, using(crate::proofs::Texts::text_append))]
pub fn put_stmt(alloc: Global, out: &mut String, depth: u32, stmt: &Stmt) -> Result<(), NoMemory>
    ensures { OnOk result (string_bytes out.new ≡ string_bytes out.old ++ text (stmt_pieces stmt.now depth)) }
{
    put_body(alloc, out, depth, stmt)?;
    if is_simple(stmt) {
        put(out, ";")
    } else {
        Ok(())
    }
}

// The statement but for the semicolon at its end.
#[cycle(statement)]
#[tactic(auto, unfolding(crate::specs::Statements::layout), using(crate::proofs::Texts::text_append))]
fn put_body(alloc: Global, out: &mut String, depth: u32, stmt: &Stmt) -> Result<(), NoMemory>
    ensures { OnOk result (string_bytes out.new ≡ string_bytes out.old ++ text ((layout stmt.now).body depth)) }
{
    match &stmt.node {
        StmtNode::Empty => Ok(()),
        StmtNode::Block(stmts) => put_block(alloc, out, depth, stmts.as_slice()),
        StmtNode::Declare(locals) => put_declared(alloc, out, Keyword::Int, locals.items()),
        StmtNode::DeclareThread(names) => put_declared(alloc, out, Keyword::Thread, names.items()),
        StmtNode::Assign(left, value) => put_assign(alloc, out, &left.get().node, value.get()),
        StmtNode::Update(left, op, e) => put_update(alloc, out, &left.get().node, *op, e.get()),
        StmtNode::Do(value) => put_value(alloc, out, value.get()),
        StmtNode::If(test, then, other) => {
            put_tested(alloc, out, Keyword::If, test.get())?;
            put_behind(alloc, out, depth, then.get())?;
            put_otherwise(alloc, out, depth, other)
        }
        StmtNode::While(test, body) => {
            put_tested(alloc, out, Keyword::While, test.get())?;
            put_behind(alloc, out, depth, body.get())
        }
        StmtNode::DoWhile(body, test) => {
            put(out, keyword_text(Keyword::Do))?;
            put_behind(alloc, out, depth, body.get())?;
            put(out, " ")?;
            put_tested(alloc, out, Keyword::While, test.get())
        }
        StmtNode::For(first, test, step, body) => {
            put_for(out)?;
            put_first_part(alloc, out, depth, first)?;
            put_test_part(alloc, out, test)?;
            put_step_part(alloc, out, depth, step)?;
            put_behind(alloc, out, depth, body.get())
        }
        StmtNode::Break => put(out, keyword_text(Keyword::Break)),
        StmtNode::Continue => put(out, keyword_text(Keyword::Continue)),
        StmtNode::Return(value) => put_return(alloc, out, value),
        StmtNode::Assert(test, name) => put_assert(alloc, out, test.get(), name),
        StmtNode::Assume(test) => put_assume(alloc, out, test.get()),
        StmtNode::Fence => put_bare(out, Keyword::Synchronize),
        StmtNode::Lock(mutex) => put_mutex_call(out, Keyword::Lock, mutex.name.text()),
        StmtNode::Unlock(mutex) => put_mutex_call(out, Keyword::Unlock, mutex.name.text()),
        StmtNode::Start(thread, function) => put_start(alloc, out, thread, function),
        StmtNode::Join(thread) => put_join(alloc, out, thread),
        StmtNode::Goto(label) => put_goto(out, label.name.text()),
        StmtNode::Label(label, stmt) => {
            put_label(out, label.name.text())?;
            put_stmt(alloc, out, depth, stmt.get())
        }
        StmtNode::AtomBegin => put_bare(out, Keyword::AtomicBegin),
        StmtNode::AtomEnd => put_bare(out, Keyword::AtomicEnd),
    }
}

// A blank and a statement.
#[cycle(statement)]
fn put_behind(alloc: Global, out: &mut String, depth: u32, stmt: &Stmt) -> Result<(), NoMemory>
    ensures { OnOk result (string_bytes out.new ≡ string_bytes out.old ++ text (Piece.blank ∷ stmt_pieces stmt.now depth)) }
{
    put(out, " ")?;
    put_stmt(alloc, out, depth, stmt)
}

// `else` and its statement, if there is one.
#[cycle(statement)]
fn put_otherwise(
    alloc: Global,
    out: &mut String,
    depth: u32,
    other: &Option<Boxed<Stmt>>,
) -> Result<(), NoMemory>
    ensures { OnOk result (string_bytes out.new ≡ string_bytes out.old ++ text (otherwise (option_map layout other.now) depth)) }
{
    match other {
        None => Ok(()),
        Some(other) => {
            put(out, " ")?;
            put_before(out, Keyword::Else)?;
            put_stmt(alloc, out, depth, other.get())
        }
    }
}

#[cycle(statement)]
fn put_first_part(
    alloc: Global,
    out: &mut String,
    depth: u32,
    first: &Option<Boxed<Stmt>>,
) -> Result<(), NoMemory>
    ensures { OnOk result (string_bytes out.new ≡ string_bytes out.old ++ text (first_part (option_map layout first.now) depth)) }
{
    match first {
        None => Ok(()),
        Some(first) => put_body(alloc, out, depth, first.get()),
    }
}

// The last part of a loop's head, and the parenthesis that closes it.
#[cycle(statement)]
#[tactic(auto, using(crate::proofs::Texts::text_append))]
fn put_step_part(
    alloc: Global,
    out: &mut String,
    depth: u32,
    step: &Option<Boxed<Stmt>>,
) -> Result<(), NoMemory>
    ensures { OnOk result (string_bytes out.new ≡ string_bytes out.old ++ text (step_part (option_map layout step.now) depth ++ Piece.mark symbol.Close ∷ [])) }
{
    match step {
        None => put(out, ")"),
        Some(step) => {
            put(out, " ")?;
            put_body(alloc, out, depth, step.get())?;
            put(out, ")")
        }
    }
}

/// Writes statements in braces, with so many blocks open around them.
#[cycle(statement)]
#[tactic(auto, using(crate::proofs::Texts::text_append))]
pub fn put_block(
    alloc: Global,
    out: &mut String,
    depth: u32,
    stmts: &[Stmt],
) -> Result<(), NoMemory>
    ensures { OnOk result (string_bytes out.new ≡ string_bytes out.old ++ text (braces depth (map layout stmts.now))) }
{
    put(out, "{")?;
    let inner = deeper(depth)?;
    put_lines(alloc, out, inner, stmts)?;
    put_line(out, depth)?;
    put(out, "}")
}

#[cycle(statement)]
#[tactic(auto, using(crate::proofs::Texts::text_append))]
fn put_lines(alloc: Global, out: &mut String, depth: u32, stmts: &[Stmt]) -> Result<(), NoMemory>
    ensures { OnOk result (string_bytes out.new ≡ string_bytes out.old ++ text (lines depth (map layout stmts.now))) }
{
    for stmt in stmts {
        put_line(out, depth)?;
        put_stmt(alloc, out, depth, stmt)?;
    }
    Ok(())
}
