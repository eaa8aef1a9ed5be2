//! What stands in the parentheses behind a word: the test of a statement, and the three parts of a loop.
ghost use Rattle.mm_reading.specs.Gives.{Gives};
ghost use Rattle.mm_parse.specs.reading.Begun as begun;
ghost use Rattle.mm_grammar.specs.reading.StatementReading as spec;

use super::assignment::{one, read_assign};
use super::declaration::read_declaration;
use super::marks::{read_open_mark, read_semicolon};
use mm_parse_expr::{Keyword, Symbol, Terminal, read_close, read_expr};
use mm_reading::{Refused, keep};
use mm_tree::{Expr, Stmt};
use sqlite_items::Boxed;
use std::alloc::Global;

/// A test in parentheses.
#[tactic(auto, unfolding(crate::specs::reading::Begun::in_parentheses, mm_reading::specs::Parsing::pure))]
pub fn read_test<'a>(
    alloc: Global,
    bound: usize,
    depth: u32,
    ts: &'a [Terminal<'a>],
) -> Result<(Boxed<Expr>, &'a [Terminal<'a>]), Refused>
    ensures { Gives result (begun.in_parentheses bound ts.now) }
{
    let rest = read_open_mark(ts)?;
    let (test, rest) = read_expr(alloc, bound, depth, rest)?;
    let rest = read_close(rest)?;
    Ok((test, rest))
}

/// What a loop begins with, and `;`.
#[tactic(auto, unfolding(mm_grammar::specs::reading::StatementReading::first, mm_reading::specs::Parsing::peek, mm_reading::specs::Parsing::skip, mm_reading::specs::Parsing::pure, mm_reading::specs::Parsing::fail))]
fn read_first<'a>(
    alloc: Global,
    bound: usize,
    depth: u32,
    ts: &'a [Terminal<'a>],
) -> Result<(Option<Boxed<Stmt>>, &'a [Terminal<'a>]), Refused>
    ensures { Gives result (spec.first bound ts.now) }
{
    match ts {
        [] => Err(Refused::Fault(0)),
        [
            Terminal {
                symbol: Symbol::Semicolon,
                ..
            },
            rest @ ..,
        ] => Ok((None, rest)),
        [
            first @ Terminal {
                symbol: Symbol::Keyword(Keyword::Int | Keyword::Volatile | Keyword::Thread),
                ..
            },
            rest @ ..,
        ] => {
            let (node, rest) = read_declaration(alloc, bound, depth, first, rest)?;
            let at = first.at;
            Ok((Some(Stmt::boxed(alloc, at, node)?), rest))
        }
        [Terminal { at, .. }, ..] => {
            let (node, rest) = read_assign(alloc, bound, depth, ts)?;
            let (node, rest) = keep(node, read_semicolon(rest))?;
            Ok((Some(Stmt::boxed(alloc, *at, node)?), rest))
        }
    }
}

/// The test of a loop, which is 1 where there is none, and `;`.
#[tactic(auto, unfolding(mm_grammar::specs::reading::StatementReading::condition, mm_reading::specs::Parsing::peek, mm_reading::specs::Parsing::skip, mm_reading::specs::Parsing::pure, mm_reading::specs::Parsing::fail))]
fn read_condition<'a>(
    alloc: Global,
    bound: usize,
    depth: u32,
    ts: &'a [Terminal<'a>],
) -> Result<(Boxed<Expr>, &'a [Terminal<'a>]), Refused>
    ensures { Gives result (spec.condition bound ts.now) }
{
    match ts {
        [] => Err(Refused::Fault(0)),
        [
            Terminal {
                symbol: Symbol::Semicolon,
                at,
                ..
            },
            rest @ ..,
        ] => Ok((one(alloc, *at)?, rest)),
        _ => {
            let (test, rest) = read_expr(alloc, bound, depth, ts)?;
            let rest = read_semicolon(rest)?;
            Ok((test, rest))
        }
    }
}

/// What a loop does between its rounds, and `)`.
#[tactic(auto, unfolding(mm_grammar::specs::reading::StatementReading::step, mm_reading::specs::Parsing::peek, mm_reading::specs::Parsing::skip, mm_reading::specs::Parsing::pure, mm_reading::specs::Parsing::fail))]
fn read_step<'a>(
    alloc: Global,
    bound: usize,
    depth: u32,
    ts: &'a [Terminal<'a>],
) -> Result<(Option<Boxed<Stmt>>, &'a [Terminal<'a>]), Refused>
    ensures { Gives result (spec.step bound ts.now) }
{
    match ts {
        [] => Err(Refused::Fault(0)),
        [
            Terminal {
                symbol: Symbol::Close,
                ..
            },
            rest @ ..,
        ] => Ok((None, rest)),
        [Terminal { at, .. }, ..] => {
            let (node, rest) = read_assign(alloc, bound, depth, ts)?;
            let (node, rest) = keep(node, read_close(rest))?;
            Ok((Some(Stmt::boxed(alloc, *at, node)?), rest))
        }
    }
}

/// What a loop begins with, its test and what it does between its rounds, in parentheses.
#[tactic(auto, unfolding(crate::specs::reading::Begun::header, mm_reading::specs::Parsing::pure))]
pub fn read_header<'a>(
    alloc: Global,
    bound: usize,
    depth: u32,
    ts: &'a [Terminal<'a>],
) -> Result<
    (
        (Option<Boxed<Stmt>>, Boxed<Expr>, Option<Boxed<Stmt>>),
        &'a [Terminal<'a>],
    ),
    Refused,
>
    ensures { Gives result (begun.header bound ts.now) }
{
    let rest = read_open_mark(ts)?;
    let (first, rest) = read_first(alloc, bound, depth, rest)?;
    let (test, rest) = read_condition(alloc, bound, depth, rest)?;
    let (step, rest) = read_step(alloc, bound, depth, rest)?;
    Ok(((first, test, step), rest))
}
