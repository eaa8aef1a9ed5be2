//! Statements that hold no other.
ghost use Rattle.mm_reading.specs.Gives.{Gives};
ghost use Rattle.mm_grammar.specs.reading.StatementReading as spec;

use super::header::read_test;
use super::marks::{
    read_ampersand, read_comma, read_null, read_open_mark, read_semicolon, read_text,
};
use super::value::read_value;
use mm_parse_expr::{Symbol, Terminal, read_close, read_expr, read_name};
use mm_reading::{Refused, keep, pair};
use mm_tree::{StmtNode, Value, Word};
use sqlite_items::Boxed;
use std::alloc::Global;

/// This, and then `;`.
#[tactic(auto, unfolding(mm_reading::specs::Parsing::pure))]
pub fn read_ended<'a>(
    node: StmtNode,
    ts: &'a [Terminal<'a>],
) -> Result<(StmtNode, &'a [Terminal<'a>]), Refused>
    ensures { Gives result (spec.ended node ts.now) }
{
    keep(node, read_semicolon(ts))
}

/// `( ) ;`.
#[tactic(auto, unfolding(mm_grammar::specs::reading::StatementReading::bare))]
pub fn read_bare<'a>(
    node: StmtNode,
    ts: &'a [Terminal<'a>],
) -> Result<(StmtNode, &'a [Terminal<'a>]), Refused>
    ensures { Gives result (spec.bare node ts.now) }
{
    let (node, rest) = keep(node, read_open_mark(ts))?;
    let (node, rest) = keep(node, read_close(rest))?;
    read_ended(node, rest)
}

/// What stands behind `assert`.
#[tactic(auto, using(crate::proofs::Tested::with_expr_on))]
pub fn read_assert<'a>(
    alloc: Global,
    bound: usize,
    depth: u32,
    ts: &'a [Terminal<'a>],
) -> Result<(StmtNode, &'a [Terminal<'a>]), Refused>
    ensures { Gives result (spec.with_expr bound (λ e. StmtNode.Assert e None) ts.now) }
{
    let (test, rest) = read_test(alloc, bound, depth, ts)?;
    read_ended(StmtNode::Assert(test, None), rest)
}

/// What stands behind `__CPROVER_assert`.
#[tactic(auto, unfolding(mm_grammar::specs::reading::StatementReading::named_assert, mm_reading::specs::Parsing::pure))]
pub fn read_named_assert<'a>(
    alloc: Global,
    bound: usize,
    depth: u32,
    ts: &'a [Terminal<'a>],
) -> Result<(StmtNode, &'a [Terminal<'a>]), Refused>
    ensures { Gives result (spec.named_assert bound ts.now) }
{
    let rest = read_open_mark(ts)?;
    let (test, rest) = read_expr(alloc, bound, depth, rest)?;
    let rest = read_comma(rest)?;
    let (text, rest) = read_text(alloc, rest)?;
    let rest = read_close(rest)?;
    read_ended(StmtNode::Assert(test, Some(text)), rest)
}

/// What stands behind `__CPROVER_assume`.
#[tactic(auto, using(crate::proofs::Tested::with_expr_on))]
pub fn read_assume<'a>(
    alloc: Global,
    bound: usize,
    depth: u32,
    ts: &'a [Terminal<'a>],
) -> Result<(StmtNode, &'a [Terminal<'a>]), Refused>
    ensures { Gives result (spec.with_expr bound StmtNode.Assume ts.now) }
{
    let (test, rest) = read_test(alloc, bound, depth, ts)?;
    read_ended(StmtNode::Assume(test), rest)
}

/// What stands behind `pthread_mutex_lock`.
#[tactic(auto, unfolding(mm_grammar::specs::reading::StatementReading::with_address, mm_reading::specs::Parsing::pure))]
pub fn read_lock<'a>(
    alloc: Global,
    ts: &'a [Terminal<'a>],
) -> Result<(StmtNode, &'a [Terminal<'a>]), Refused>
    ensures { Gives result (spec.with_address StmtNode.Lock ts.now) }
{
    let rest = read_open_mark(ts)?;
    let rest = read_ampersand(rest)?;
    let (mutex, rest) = read_name(alloc, rest)?;
    let (mutex, rest) = keep(mutex, read_close(rest))?;
    read_ended(StmtNode::Lock(mutex), rest)
}

/// What stands behind `pthread_mutex_unlock`.
#[tactic(auto, unfolding(mm_grammar::specs::reading::StatementReading::with_address, mm_reading::specs::Parsing::pure))]
pub fn read_unlock<'a>(
    alloc: Global,
    ts: &'a [Terminal<'a>],
) -> Result<(StmtNode, &'a [Terminal<'a>]), Refused>
    ensures { Gives result (spec.with_address StmtNode.Unlock ts.now) }
{
    let rest = read_open_mark(ts)?;
    let rest = read_ampersand(rest)?;
    let (mutex, rest) = read_name(alloc, rest)?;
    let (mutex, rest) = keep(mutex, read_close(rest))?;
    read_ended(StmtNode::Unlock(mutex), rest)
}

/// What stands behind the first two arguments of `pthread_create`.
#[tactic(auto, unfolding(mm_grammar::specs::reading::StatementReading::started, mm_reading::specs::Parsing::pure))]
fn read_started<'a>(
    alloc: Global,
    thread: Word,
    ts: &'a [Terminal<'a>],
) -> Result<(StmtNode, &'a [Terminal<'a>]), Refused>
    ensures { Gives result (spec.started thread ts.now) }
{
    let (thread, rest) = keep(thread, read_comma(ts))?;
    let ((thread, function), rest) = pair(thread, read_name(alloc, rest))?;
    let (node, rest) = keep(StmtNode::Start(thread, function), read_comma(rest))?;
    let (node, rest) = keep(node, read_null(rest))?;
    let (node, rest) = keep(node, read_close(rest))?;
    read_ended(node, rest)
}

/// What stands behind `pthread_create`.
#[tactic(auto, unfolding(mm_grammar::specs::reading::StatementReading::start, mm_reading::specs::Parsing::pure))]
pub fn read_start<'a>(
    alloc: Global,
    ts: &'a [Terminal<'a>],
) -> Result<(StmtNode, &'a [Terminal<'a>]), Refused>
    ensures { Gives result (spec.start ts.now) }
{
    let rest = read_open_mark(ts)?;
    let rest = read_ampersand(rest)?;
    let (thread, rest) = read_name(alloc, rest)?;
    let (thread, rest) = keep(thread, read_comma(rest))?;
    let (thread, rest) = keep(thread, read_null(rest))?;
    read_started(alloc, thread, rest)
}

/// What stands behind `pthread_join`.
#[tactic(auto, unfolding(mm_grammar::specs::reading::StatementReading::join, mm_reading::specs::Parsing::pure))]
pub fn read_join<'a>(
    alloc: Global,
    ts: &'a [Terminal<'a>],
) -> Result<(StmtNode, &'a [Terminal<'a>]), Refused>
    ensures { Gives result (spec.join ts.now) }
{
    let rest = read_open_mark(ts)?;
    let (thread, rest) = read_name(alloc, rest)?;
    let (thread, rest) = keep(thread, read_comma(rest))?;
    let (thread, rest) = keep(thread, read_null(rest))?;
    let (thread, rest) = keep(thread, read_close(rest))?;
    read_ended(StmtNode::Join(thread), rest)
}

/// What stands behind `goto`.
#[tactic(auto, unfolding(mm_grammar::specs::reading::StatementReading::goto, mm_reading::specs::Parsing::pure))]
pub fn read_goto<'a>(
    alloc: Global,
    ts: &'a [Terminal<'a>],
) -> Result<(StmtNode, &'a [Terminal<'a>]), Refused>
    ensures { Gives result (spec.goto ts.now) }
{
    let (label, rest) = read_name(alloc, ts)?;
    read_ended(StmtNode::Goto(label), rest)
}

/// What stands behind `return`: a value or none, and `;`.
#[tactic(auto, unfolding(mm_grammar::specs::reading::StatementReading::given, mm_reading::specs::Parsing::peek, mm_reading::specs::Parsing::skip, mm_reading::specs::Parsing::pure, mm_reading::specs::Parsing::fail))]
pub fn read_given<'a>(
    alloc: Global,
    bound: usize,
    depth: u32,
    ts: &'a [Terminal<'a>],
) -> Result<(Option<Boxed<Value>>, &'a [Terminal<'a>]), Refused>
    ensures { Gives result (spec.given bound ts.now) }
{
    match ts {
        [] => Err(Refused::Fault(0)),
        [
            Terminal {
                symbol: Symbol::Semicolon,
                ..
            },
            rest @ ..,
        ] => Ok((None, rest)),
        _ => {
            let (value, rest) = read_value(alloc, bound, depth, ts)?;
            let rest = read_semicolon(rest)?;
            Ok((Some(value), rest))
        }
    }
}
