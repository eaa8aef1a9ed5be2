//! Left sides of assignments.
ghost use Rattle.std.specs.Prelude.{◌≡◌, IfOk};
ghost use Rattle.mm_reading.specs.Gives.{Gives};
ghost use Rattle.mm_grammar.specs.reading.StatementReading as spec;

use mm_goto::{At, Binary, Ident, NoMemory};
use mm_parse_expr::{Symbol, Terminal, read_close, read_index, read_unary};
use mm_reading::{Refused, keep};
use mm_tree::{Expr, Left, LeftNode};
use sqlite_items::Boxed;
use std::alloc::Global;

fn left_tree(
    alloc: Global,
    at: At,
    name: &str,
    index: Option<Boxed<Expr>>,
) -> Result<Boxed<Left>, NoMemory>
    ensures { IfOk result (λ l. l ≡ spec.left_tree at name.now index) }
{
    let name = Ident::copy_of(alloc, name)?;
    let node = match index {
        Some(index) => LeftNode::Index(name, index),
        None => LeftNode::Name(name),
    };
    Ok(Boxed::new(alloc, Left { at, node })?)
}

/// What stands behind a name.
#[tactic(auto, unfolding(mm_grammar::specs::reading::StatementReading::named_left, mm_reading::specs::Parsing::pure))]
pub fn read_named_left<'a>(
    alloc: Global,
    bound: usize,
    depth: u32,
    first: &Terminal<'a>,
    ts: &'a [Terminal<'a>],
) -> Result<(Boxed<Left>, &'a [Terminal<'a>]), Refused>
    ensures { Gives result (spec.named_left bound first.now ts.now) }
{
    let (index, rest) = read_index(alloc, bound, depth, ts)?;
    Ok((
        left_tree(alloc, first.at, first.spelling.text(), index)?,
        rest,
    ))
}

/// What stands behind a star.
#[tactic(auto, unfolding(mm_grammar::specs::reading::StatementReading::pointed_left, mm_reading::specs::Parsing::pure))]
pub fn read_pointed_left<'a>(
    alloc: Global,
    bound: usize,
    depth: u32,
    first: &Terminal<'a>,
    ts: &'a [Terminal<'a>],
) -> Result<(Boxed<Left>, &'a [Terminal<'a>]), Refused>
    ensures { Gives result (spec.pointed_left bound first.now ts.now) }
{
    let (pointer, rest) = read_unary(alloc, bound, depth, ts)?;
    let at = first.at;
    let node = LeftNode::Deref(pointer);
    Ok((Boxed::new(alloc, Left { at, node })?, rest))
}

/// What stands behind an open parenthesis.
#[cycle(left)]
#[tactic(auto, unfolding(mm_grammar::specs::reading::StatementReading::grouped_left, mm_reading::specs::Parsing::pure))]
pub fn read_grouped_left<'a>(
    alloc: Global,
    bound: usize,
    depth: u32,
    ts: &'a [Terminal<'a>],
) -> Result<(Boxed<Left>, &'a [Terminal<'a>]), Refused>
    ensures { Gives result (spec.grouped_left (spec.left bound) ts.now) }
{
    let (left, rest) = read_left(alloc, bound, depth, ts)?;
    keep(left, read_close(rest))
}

/// A left side. It wants memory where `depth` is 0, and `bound` is above the number of tokens.
#[cycle(left)]
#[tactic(auto, unfolding(mm_grammar::specs::reading::StatementReading::left, mm_reading::specs::Parsing::peek, mm_reading::specs::Parsing::skip, mm_reading::specs::Parsing::fail))]
pub fn read_left<'a>(
    alloc: Global,
    bound: usize,
    depth: u32,
    ts: &'a [Terminal<'a>],
) -> Result<(Boxed<Left>, &'a [Terminal<'a>]), Refused>
    ensures { Gives result (spec.left bound ts.now) }
{
    if depth == 0 {
        return Err(Refused::Memory);
    }
    if bound == 0 {
        return Err(Refused::Fault(ts.len()));
    }
    match ts {
        [
            first @ Terminal {
                symbol: Symbol::Name,
                ..
            },
            rest @ ..,
        ] => read_named_left(alloc, bound - 1, depth - 1, first, rest),
        [
            first @ Terminal {
                symbol: Symbol::Operator(Binary::Mul),
                ..
            },
            rest @ ..,
        ] => read_pointed_left(alloc, bound - 1, depth - 1, first, rest),
        [
            Terminal {
                symbol: Symbol::Open,
                ..
            },
            rest @ ..,
        ] => read_grouped_left(alloc, bound - 1, depth - 1, rest),
        _ => Err(Refused::Fault(ts.len())),
    }
}
