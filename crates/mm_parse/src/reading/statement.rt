//! Statements.
ghost use Rattle.mm_reading.specs.Gives.{Gives};
ghost use Rattle.mm_reading.specs.Parsing.{head};
ghost use Rattle.mm_parse.specs.reading.Begun as begun;
ghost use Rattle.mm_parse.specs.reading.Openings as openings;
ghost use Rattle.mm_grammar.specs.reading.StatementReading as spec;

use super::action::read_ended;
use super::header::read_test;
use super::list::onwards;
use super::marks::read_while_word;
use super::opening::{Head, Opening, read_next_opening, read_opening};
use mm_parse_expr::{Keyword, Symbol, Terminal};
use mm_reading::Refused;
use mm_tree::{Expr, Stmt, StmtNode};
use sqlite_items::{Boxed, Items};
use std::alloc::Global;

/// How much of the depth an open statement takes, where an open expression takes 1. So 199 statements may be open, one
/// within another. No proof sees the stack: docs/DECISIONS.md tells how much of it they were measured to take.
pub const STATEMENT: u32 = 4;

/// What stands behind the statement that is held.
#[tactic(auto, unfolding(mm_reading::specs::Parsing::pure))]
fn read_closing<'a>(
    alloc: Global,
    bound: usize,
    depth: u32,
    head: Head,
    held: Boxed<Stmt>,
    ts: &'a [Terminal<'a>],
) -> Result<(StmtNode, &'a [Terminal<'a>]), Refused>
    ensures { Gives result (openings.closing bound head held ts.now) }
{
    match head {
        Head::While(test) => Ok((StmtNode::While(test, held), ts)),
        Head::Do => {
            let rest = read_while_word(ts)?;
            let (test, rest) = read_test(alloc, bound, depth, rest)?;
            read_ended(StmtNode::DoWhile(held, test), rest)
        }
        Head::For(begin, test, step) => Ok((StmtNode::For(begin, Some(test), step, held), ts)),
        Head::Label(word) => Ok((StmtNode::Label(word, held), ts)),
    }
}

/// What stands behind the test and the first branch of an `if`.
#[cycle(statement)]
#[tactic(auto, unfolding(mm_reading::specs::Parsing::skip, mm_reading::specs::Parsing::pure))]
fn read_else<'a>(
    alloc: Global,
    bound: usize,
    depth: u32,
    test: Boxed<Expr>,
    then: Boxed<Stmt>,
    ts: &'a [Terminal<'a>],
) -> Result<(StmtNode, &'a [Terminal<'a>]), Refused>
    ensures { Gives result (spec.else_at (spec.inner bound) test then (head ts.now) ts.now) }
{
    match ts {
        [
            Terminal {
                symbol: Symbol::Keyword(Keyword::Else),
                ..
            },
            rest @ ..,
        ] => {
            let (other, rest) = read_stmt(alloc, bound, depth, rest)?;
            Ok((StmtNode::If(test, then, Some(other)), rest))
        }
        _ => Ok((StmtNode::If(test, then, None), ts)),
    }
}

/// What stands behind `if` and the test.
#[cycle(statement)]
#[tactic(auto, unfolding(mm_reading::specs::Parsing::peek))]
fn read_when<'a>(
    alloc: Global,
    bound: usize,
    depth: u32,
    test: Boxed<Expr>,
    ts: &'a [Terminal<'a>],
) -> Result<(StmtNode, &'a [Terminal<'a>]), Refused>
    ensures { Gives result (openings.branched (spec.inner bound) test ts.now) }
{
    let (then, rest) = read_stmt(alloc, bound, depth, ts)?;
    read_else(alloc, bound, depth, test, then, rest)
}

/// The one statement that is held, and what stands behind it.
#[cycle(statement)]
fn read_held<'a>(
    alloc: Global,
    bound: usize,
    depth: u32,
    head: Head,
    ts: &'a [Terminal<'a>],
) -> Result<(StmtNode, &'a [Terminal<'a>]), Refused>
    ensures { Gives result (openings.held bound (spec.inner bound) head ts.now) }
{
    let (held, rest) = read_stmt(alloc, bound, depth, ts)?;
    read_closing(alloc, bound, depth, head, held, rest)
}

/// A block behind its open brace.
#[cycle(statement)]
#[tactic(auto, unfolding(mm_reading::specs::Parsing::pure))]
fn read_block<'a>(
    alloc: Global,
    bound: usize,
    depth: u32,
    ts: &'a [Terminal<'a>],
) -> Result<(StmtNode, &'a [Terminal<'a>]), Refused>
    ensures { Gives result (begun.block bound ts.now) }
{
    if depth < STATEMENT {
        return Err(Refused::Memory);
    }
    let (stmts, rest) = read_body(alloc, bound, depth - STATEMENT, ts)?;
    Ok((StmtNode::Block(Items::from_vec(stmts)), rest))
}

/// What a statement goes on with, that begins so.
#[cycle(statement)]
#[tactic(auto, unfolding(mm_reading::specs::Parsing::pure))]
fn read_within<'a>(
    alloc: Global,
    bound: usize,
    depth: u32,
    opening: Opening,
    ts: &'a [Terminal<'a>],
) -> Result<(StmtNode, &'a [Terminal<'a>]), Refused>
    ensures { Gives result (openings.within bound (spec.inner bound) opening ts.now) }
{
    match opening {
        Opening::Whole(node) => Ok((node, ts)),
        Opening::Block => read_block(alloc, bound, depth, ts),
        Opening::When(test) => read_when(alloc, bound, depth, test, ts),
        Opening::Holds(head) => read_held(alloc, bound, depth, head, ts),
    }
}

/// A statement. It wants memory where `depth` is below `STATEMENT`, and `bound` is above the number of tokens.
#[cycle(statement)]
#[tactic(auto, unfolding(mm_grammar::specs::reading::StatementReading::inner, mm_reading::specs::Parsing::fail))]
fn read_stmt<'a>(
    alloc: Global,
    bound: usize,
    depth: u32,
    ts: &'a [Terminal<'a>],
) -> Result<(Boxed<Stmt>, &'a [Terminal<'a>]), Refused>
    ensures { Gives result (spec.stmt bound ts.now) }
{
    if depth < STATEMENT {
        return Err(Refused::Memory);
    }
    if bound == 0 {
        return Err(Refused::Fault(ts.len()));
    }
    let (found, rest) = read_opening(alloc, bound - 1, depth - STATEMENT, ts)?;
    let (at, opening) = found;
    let (node, rest) = read_within(alloc, bound - 1, depth - STATEMENT, opening, rest)?;
    Ok((Stmt::boxed(alloc, at, node)?, rest))
}

/// The next declaration or statement of a block, and `None` for its closing brace.
#[cycle(statement)]
fn read_next<'a>(
    alloc: Global,
    bound: usize,
    depth: u32,
    ts: &'a [Terminal<'a>],
) -> Result<(Option<Boxed<Stmt>>, &'a [Terminal<'a>]), Refused>
    ensures { Gives result (begun.next bound (spec.inner bound) ts.now) }
{
    let (next, rest) = read_next_opening(alloc, bound, depth, ts)?;
    let Some(found) = next else {
        return Ok((None, rest));
    };
    let (at, opening) = found;
    let (node, rest) = read_within(alloc, bound, depth, opening, rest)?;
    Ok((Some(Stmt::boxed(alloc, at, node)?), rest))
}

/// The declarations and statements of a block, and its closing brace. It wants memory where `depth` is too small for a
/// statement within, and `bound` is above the number of tokens.
#[cycle(statement)]
pub fn read_body<'a>(
    alloc: Global,
    bound: usize,
    depth: u32,
    ts: &'a [Terminal<'a>],
) -> Result<(Vec<Stmt>, &'a [Terminal<'a>]), Refused>
    ensures { begun.GivesAll result (spec.body bound ts.now) }
{
    let mut stmts = Vec::new(alloc);
    let mut left = bound;
    let mut rest = ts;
    while left > 0 {
        left -= 1;
        let (next, others) = read_next(alloc, left, depth, rest)?;
        let Some(stmt) = next else {
            stmts.shrink_to_fit();
            return Ok((stmts, others));
        };
        stmts.push(stmt.into_inner())?;
        rest = onwards(others);
    }
    Err(Refused::Fault(rest.len()))
}
