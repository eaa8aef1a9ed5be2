//! Statements that hold no other, behind their first token.
ghost use Rattle.mm_reading.specs.Gives.{Gives};
ghost use Rattle.mm_parse.specs.reading.Begun as begun;
ghost use Rattle.mm_parse.specs.reading.Openings as openings;
ghost use Rattle.mm_grammar.specs.reading.StatementReading as spec;

use super::action::{
    read_assert, read_assume, read_bare, read_ended, read_given, read_goto, read_join, read_lock,
    read_named_assert, read_start, read_unlock,
};
use super::assignment::{read_decrement, read_increment, read_set};
use super::left::{read_grouped_left, read_named_left, read_pointed_left};
use super::value::{read_call, read_compare_swap, read_fetch_add};
use mm_goto::Binary;
use mm_parse_expr::{Keyword, Symbol, Terminal};
use mm_reading::Refused;
use mm_tree::{Left, StmtNode};
use sqlite_items::Boxed;
use std::alloc::Global;

fn read_fetch_add_ended<'a>(
    alloc: Global,
    bound: usize,
    depth: u32,
    first: &Terminal<'a>,
    ts: &'a [Terminal<'a>],
) -> Result<(StmtNode, &'a [Terminal<'a>]), Refused>
    ensures { Gives result (begun.effect (spec.fetch_add bound first.now) ts.now) }
{
    let (value, rest) = read_fetch_add(alloc, bound, depth, first, ts)?;
    read_ended(StmtNode::Do(value), rest)
}

fn read_compare_swap_ended<'a>(
    alloc: Global,
    bound: usize,
    depth: u32,
    first: &Terminal<'a>,
    ts: &'a [Terminal<'a>],
) -> Result<(StmtNode, &'a [Terminal<'a>]), Refused>
    ensures { Gives result (begun.effect (spec.compare_swap bound first.now) ts.now) }
{
    let (value, rest) = read_compare_swap(alloc, bound, depth, first, ts)?;
    read_ended(StmtNode::Do(value), rest)
}

pub fn read_call_ended<'a>(
    alloc: Global,
    bound: usize,
    depth: u32,
    first: &Terminal<'a>,
    ts: &'a [Terminal<'a>],
) -> Result<(StmtNode, &'a [Terminal<'a>]), Refused>
    ensures { Gives result (begun.effect (spec.call bound first.now) ts.now) }
{
    let (value, rest) = read_call(alloc, bound, depth, first, ts)?;
    read_ended(StmtNode::Do(value), rest)
}

fn read_increment_ended<'a>(
    alloc: Global,
    bound: usize,
    depth: u32,
    first: &Terminal<'a>,
    ts: &'a [Terminal<'a>],
) -> Result<(StmtNode, &'a [Terminal<'a>]), Refused>
    ensures { Gives result (begun.closed (spec.increment bound first.now) ts.now) }
{
    let (node, rest) = read_increment(alloc, bound, depth, first, ts)?;
    read_ended(node, rest)
}

fn read_decrement_ended<'a>(
    alloc: Global,
    bound: usize,
    depth: u32,
    first: &Terminal<'a>,
    ts: &'a [Terminal<'a>],
) -> Result<(StmtNode, &'a [Terminal<'a>]), Refused>
    ensures { Gives result (begun.closed (spec.decrement bound first.now) ts.now) }
{
    let (node, rest) = read_decrement(alloc, bound, depth, first, ts)?;
    read_ended(node, rest)
}

fn read_set_ended<'a>(
    alloc: Global,
    bound: usize,
    depth: u32,
    left: Boxed<Left>,
    ts: &'a [Terminal<'a>],
) -> Result<(StmtNode, &'a [Terminal<'a>]), Refused>
    ensures { Gives result (begun.closed (spec.set bound left) ts.now) }
{
    let (node, rest) = read_set(alloc, bound, depth, left, ts)?;
    read_ended(node, rest)
}

pub fn read_named_set<'a>(
    alloc: Global,
    bound: usize,
    depth: u32,
    first: &Terminal<'a>,
    ts: &'a [Terminal<'a>],
) -> Result<(StmtNode, &'a [Terminal<'a>]), Refused>
    ensures { Gives result (begun.assigned bound (spec.named_left bound first.now) ts.now) }
{
    let (left, rest) = read_named_left(alloc, bound, depth, first, ts)?;
    read_set_ended(alloc, bound, depth, left, rest)
}

fn read_pointed_set<'a>(
    alloc: Global,
    bound: usize,
    depth: u32,
    first: &Terminal<'a>,
    ts: &'a [Terminal<'a>],
) -> Result<(StmtNode, &'a [Terminal<'a>]), Refused>
    ensures { Gives result (begun.assigned bound (spec.pointed_left bound first.now) ts.now) }
{
    let (left, rest) = read_pointed_left(alloc, bound, depth, first, ts)?;
    read_set_ended(alloc, bound, depth, left, rest)
}

fn read_grouped_set<'a>(
    alloc: Global,
    bound: usize,
    depth: u32,
    ts: &'a [Terminal<'a>],
) -> Result<(StmtNode, &'a [Terminal<'a>]), Refused>
    ensures { Gives result (begun.assigned bound (spec.grouped_left (spec.left bound)) ts.now) }
{
    let (left, rest) = read_grouped_left(alloc, bound, depth, ts)?;
    read_set_ended(alloc, bound, depth, left, rest)
}

#[tactic(auto, unfolding(mm_reading::specs::Parsing::pure))]
fn read_return<'a>(
    alloc: Global,
    bound: usize,
    depth: u32,
    ts: &'a [Terminal<'a>],
) -> Result<(StmtNode, &'a [Terminal<'a>]), Refused>
    ensures { Gives result (begun.returned bound ts.now) }
{
    let (value, rest) = read_given(alloc, bound, depth, ts)?;
    Ok((StmtNode::Return(value), rest))
}

/// What stands behind a word.
fn read_word<'a>(
    alloc: Global,
    bound: usize,
    depth: u32,
    word: Keyword,
    first: &Terminal<'a>,
    ts: &'a [Terminal<'a>],
) -> Result<(StmtNode, &'a [Terminal<'a>]), Refused>
    ensures { Gives result (begun.begun first.now (openings.simple_word bound word first.now) ts.now) }
{
    match word {
        Keyword::FetchAndAdd => read_fetch_add_ended(alloc, bound, depth, first, ts),
        Keyword::CompareAndSwap => read_compare_swap_ended(alloc, bound, depth, first, ts),
        Keyword::Assert => read_assert(alloc, bound, depth, ts),
        Keyword::ProverAssert => read_named_assert(alloc, bound, depth, ts),
        Keyword::Assume => read_assume(alloc, bound, depth, ts),
        Keyword::Synchronize => read_bare(StmtNode::Fence, ts),
        Keyword::Lock => read_lock(alloc, ts),
        Keyword::Unlock => read_unlock(alloc, ts),
        Keyword::Create => read_start(alloc, ts),
        Keyword::Join => read_join(alloc, ts),
        Keyword::AtomicBegin => read_bare(StmtNode::AtomBegin, ts),
        Keyword::AtomicEnd => read_bare(StmtNode::AtomEnd, ts),
        Keyword::Break => read_ended(StmtNode::Break, ts),
        Keyword::Continue => read_ended(StmtNode::Continue, ts),
        Keyword::Return => read_return(alloc, bound, depth, ts),
        Keyword::Goto => read_goto(alloc, ts),
        _ => Err(Refused::Fault(ts.len() + 1)),
    }
}

/// What stands behind the first token, where that is no name.
#[tactic(auto, unfolding(mm_reading::specs::Parsing::pure))]
pub fn read_simple<'a>(
    alloc: Global,
    bound: usize,
    depth: u32,
    first: &Terminal<'a>,
    ts: &'a [Terminal<'a>],
) -> Result<(StmtNode, &'a [Terminal<'a>]), Refused>
    ensures { Gives result (begun.begun first.now (openings.simple_by bound first.now.symbol first.now) ts.now) }
{
    match first.symbol {
        Symbol::Semicolon => Ok((StmtNode::Empty, ts)),
        Symbol::Increment => read_increment_ended(alloc, bound, depth, first, ts),
        Symbol::Decrement => read_decrement_ended(alloc, bound, depth, first, ts),
        Symbol::Operator(Binary::Mul) => read_pointed_set(alloc, bound, depth, first, ts),
        Symbol::Open => read_grouped_set(alloc, bound, depth, ts),
        Symbol::Keyword(word) => read_word(alloc, bound, depth, word, first, ts),
        _ => Err(Refused::Fault(ts.len() + 1)),
    }
}
