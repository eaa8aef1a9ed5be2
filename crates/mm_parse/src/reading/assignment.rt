//! Assignments.
ghost use Rattle.std.specs.Prelude.{◌≡◌, IfOk};
ghost use Rattle.mm_reading.specs.Gives.{Gives};
ghost use Rattle.mm_grammar.specs.StatementGrammar as grammar;
ghost use Rattle.mm_grammar.specs.reading.StatementReading as spec;

use super::left::read_left;
use super::value::read_value;
use mm_goto::{At, Binary, NoMemory};
use mm_parse_expr::{Symbol, Terminal, read_expr};
use mm_reading::Refused;
use mm_tree::{Expr, Left, Node, StmtNode};
use sqlite_items::Boxed;
use std::alloc::Global;

/// The number 1, at this place.
pub fn one(alloc: Global, at: At) -> Result<Boxed<Expr>, NoMemory>
    ensures { IfOk result (λ e. e ≡ grammar.one at) }
{
    Expr::boxed(alloc, at, Node::Number(1))
}

/// What stands behind a left side.
#[tactic(auto, unfolding(mm_grammar::specs::reading::StatementReading::set, mm_reading::specs::Parsing::peek, mm_reading::specs::Parsing::skip, mm_reading::specs::Parsing::pure, mm_reading::specs::Parsing::fail))]
pub fn read_set<'a>(
    alloc: Global,
    bound: usize,
    depth: u32,
    left: Boxed<Left>,
    ts: &'a [Terminal<'a>],
) -> Result<(StmtNode, &'a [Terminal<'a>]), Refused>
    ensures { Gives result (spec.set bound left ts.now) }
{
    let [first, rest @ ..] = ts else {
        return Err(Refused::Fault(0));
    };
    match first.symbol {
        Symbol::Assign => {
            let (value, rest) = read_value(alloc, bound, depth, rest)?;
            Ok((StmtNode::Assign(left, value), rest))
        }
        Symbol::Update(op) => {
            let (expr, rest) = read_expr(alloc, bound, depth, rest)?;
            Ok((StmtNode::Update(left, op, expr), rest))
        }
        Symbol::Increment => {
            let one = one(alloc, first.at)?;
            Ok((StmtNode::Update(left, Binary::Add, one), rest))
        }
        Symbol::Decrement => {
            let one = one(alloc, first.at)?;
            Ok((StmtNode::Update(left, Binary::Sub, one), rest))
        }
        _ => Err(Refused::Fault(ts.len())),
    }
}

/// What stands behind `++`.
#[tactic(auto, unfolding(mm_grammar::specs::reading::StatementReading::increment, mm_reading::specs::Parsing::pure))]
pub fn read_increment<'a>(
    alloc: Global,
    bound: usize,
    depth: u32,
    first: &Terminal<'a>,
    ts: &'a [Terminal<'a>],
) -> Result<(StmtNode, &'a [Terminal<'a>]), Refused>
    ensures { Gives result (spec.increment bound first.now ts.now) }
{
    let (left, rest) = read_left(alloc, bound, depth, ts)?;
    let one = one(alloc, first.at)?;
    Ok((StmtNode::Update(left, Binary::Add, one), rest))
}

/// What stands behind `--`.
#[tactic(auto, unfolding(mm_grammar::specs::reading::StatementReading::decrement, mm_reading::specs::Parsing::pure))]
pub fn read_decrement<'a>(
    alloc: Global,
    bound: usize,
    depth: u32,
    first: &Terminal<'a>,
    ts: &'a [Terminal<'a>],
) -> Result<(StmtNode, &'a [Terminal<'a>]), Refused>
    ensures { Gives result (spec.decrement bound first.now ts.now) }
{
    let (left, rest) = read_left(alloc, bound, depth, ts)?;
    let one = one(alloc, first.at)?;
    Ok((StmtNode::Update(left, Binary::Sub, one), rest))
}

/// An assignment. It wants memory where `depth` is 0, and `bound` is above the number of tokens.
#[tactic(auto, unfolding(mm_grammar::specs::reading::StatementReading::assign, mm_reading::specs::Parsing::peek, mm_reading::specs::Parsing::skip, mm_reading::specs::Parsing::fail))]
pub fn read_assign<'a>(
    alloc: Global,
    bound: usize,
    depth: u32,
    ts: &'a [Terminal<'a>],
) -> Result<(StmtNode, &'a [Terminal<'a>]), Refused>
    ensures { Gives result (spec.assign bound ts.now) }
{
    match ts {
        [] => Err(Refused::Fault(0)),
        [
            first @ Terminal {
                symbol: Symbol::Increment,
                ..
            },
            rest @ ..,
        ] => read_increment(alloc, bound, depth, first, rest),
        [
            first @ Terminal {
                symbol: Symbol::Decrement,
                ..
            },
            rest @ ..,
        ] => read_decrement(alloc, bound, depth, first, rest),
        _ => {
            let (left, rest) = read_left(alloc, bound, depth, ts)?;
            read_set(alloc, bound, depth, left, rest)
        }
    }
}
