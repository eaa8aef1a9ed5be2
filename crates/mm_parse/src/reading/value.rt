//! Values: what may be assigned, returned or stand as a statement.
ghost use Rattle.mm_reading.specs.Gives.{Gives};
ghost use Rattle.mm_parse.specs.reading.Begun as begun;
ghost use Rattle.mm_grammar.specs.reading.StatementReading as spec;

use super::list::{Part, read_list};
use super::marks::{read_comma, read_open_mark};
use mm_goto::{Ident, List};
use mm_parse_expr::{Keyword, Symbol, Terminal, read_close, read_expr};
use mm_reading::Refused;
use mm_tree::{Expr, Value};
use sqlite_items::Boxed;
use std::alloc::Global;

/// An argument of a call.
struct Argument;

impl Part for Argument {
    type Value = Expr;

    ghost item = { spec.expr };

    fn read<'a>(
        alloc: Global,
        bound: usize,
        depth: u32,
        ts: &'a [Terminal<'a>],
    ) -> Result<(Expr, &'a [Terminal<'a>]), Refused> {
        let (argument, rest) = read_expr(alloc, bound, depth, ts)?;
        Ok((argument.into_inner(), rest))
    }
}

/// The arguments of a call, and the closing parenthesis.
#[tactic(auto, unfolding(mm_grammar::specs::reading::StatementReading::arguments, mm_reading::specs::Parsing::peek, mm_reading::specs::Parsing::skip, mm_reading::specs::Parsing::pure, mm_reading::specs::Parsing::fail))]
fn read_arguments<'a>(
    alloc: Global,
    bound: usize,
    depth: u32,
    ts: &'a [Terminal<'a>],
) -> Result<(List<Expr>, &'a [Terminal<'a>]), Refused>
    ensures { Gives result (spec.arguments bound ts.now) }
{
    match ts {
        [] => Err(Refused::Fault(0)),
        [
            Terminal {
                symbol: Symbol::Close,
                ..
            },
            rest @ ..,
        ] => Ok((List::new(Vec::new(alloc)), rest)),
        _ => {
            let (arguments, rest) = read_list::<Argument>(alloc, bound, depth, ts)?;
            let rest = read_close(rest)?;
            Ok((arguments, rest))
        }
    }
}

/// What stands behind the name of a called function and the open parenthesis.
#[tactic(auto, unfolding(mm_grammar::specs::reading::StatementReading::call, mm_reading::specs::Parsing::pure))]
pub fn read_call<'a>(
    alloc: Global,
    bound: usize,
    depth: u32,
    first: &Terminal<'a>,
    ts: &'a [Terminal<'a>],
) -> Result<(Boxed<Value>, &'a [Terminal<'a>]), Refused>
    ensures { Gives result (spec.call bound first.now ts.now) }
{
    let (arguments, rest) = read_arguments(alloc, bound, depth, ts)?;
    let name = Ident::copy_of(alloc, first.spelling.text())?;
    let call = Value::Call(first.at, name, arguments);
    Ok((Boxed::new(alloc, call)?, rest))
}

/// What stands behind `__sync_fetch_and_add`.
#[tactic(auto, unfolding(mm_grammar::specs::reading::StatementReading::fetch_add, mm_reading::specs::Parsing::pure))]
pub fn read_fetch_add<'a>(
    alloc: Global,
    bound: usize,
    depth: u32,
    first: &Terminal<'a>,
    ts: &'a [Terminal<'a>],
) -> Result<(Boxed<Value>, &'a [Terminal<'a>]), Refused>
    ensures { Gives result (spec.fetch_add bound first.now ts.now) }
{
    let rest = read_open_mark(ts)?;
    let (pointer, rest) = read_expr(alloc, bound, depth, rest)?;
    let rest = read_comma(rest)?;
    let (added, rest) = read_expr(alloc, bound, depth, rest)?;
    let rest = read_close(rest)?;
    let update = Value::FetchAdd(first.at, pointer, added);
    Ok((Boxed::new(alloc, update)?, rest))
}

/// What stands behind `__sync_bool_compare_and_swap`.
#[tactic(auto, unfolding(mm_grammar::specs::reading::StatementReading::compare_swap, mm_reading::specs::Parsing::pure))]
pub fn read_compare_swap<'a>(
    alloc: Global,
    bound: usize,
    depth: u32,
    first: &Terminal<'a>,
    ts: &'a [Terminal<'a>],
) -> Result<(Boxed<Value>, &'a [Terminal<'a>]), Refused>
    ensures { Gives result (spec.compare_swap bound first.now ts.now) }
{
    let rest = read_open_mark(ts)?;
    let (pointer, rest) = read_expr(alloc, bound, depth, rest)?;
    let rest = read_comma(rest)?;
    let (old, rest) = read_expr(alloc, bound, depth, rest)?;
    let rest = read_comma(rest)?;
    let (new, rest) = read_expr(alloc, bound, depth, rest)?;
    let rest = read_close(rest)?;
    let update = Value::CompareSwap(first.at, pointer, old, new);
    Ok((Boxed::new(alloc, update)?, rest))
}

#[tactic(auto, unfolding(mm_grammar::specs::reading::StatementReading::plain, mm_reading::specs::Parsing::pure))]
fn read_plain<'a>(
    alloc: Global,
    bound: usize,
    depth: u32,
    ts: &'a [Terminal<'a>],
) -> Result<(Boxed<Value>, &'a [Terminal<'a>]), Refused>
    ensures { Gives result (spec.plain bound ts.now) }
{
    let (expr, rest) = read_expr(alloc, bound, depth, ts)?;
    Ok((Boxed::new(alloc, Value::Plain(expr))?, rest))
}

/// A value that begins with a name: a call where `(` stands behind it.
#[tactic(auto, unfolding(mm_reading::specs::Parsing::skip))]
fn read_named_value<'a>(
    alloc: Global,
    bound: usize,
    depth: u32,
    ts: &'a [Terminal<'a>],
) -> Result<(Boxed<Value>, &'a [Terminal<'a>]), Refused>
    ensures { Gives result (begun.from_name bound ts.now) }
{
    match ts {
        [
            first,
            Terminal {
                symbol: Symbol::Open,
                ..
            },
            rest @ ..,
        ] => read_call(alloc, bound, depth, first, rest),
        _ => read_plain(alloc, bound, depth, ts),
    }
}

/// A value. It wants memory where `depth` is 0, and `bound` is above the number of tokens.
#[tactic(auto, unfolding(mm_grammar::specs::reading::StatementReading::value, mm_grammar::specs::reading::StatementReading::peek_behind, mm_reading::specs::Parsing::peek, mm_reading::specs::Parsing::skip, mm_reading::specs::Parsing::fail))]
pub fn read_value<'a>(
    alloc: Global,
    bound: usize,
    depth: u32,
    ts: &'a [Terminal<'a>],
) -> Result<(Boxed<Value>, &'a [Terminal<'a>]), Refused>
    ensures { Gives result (spec.value bound ts.now) }
{
    if bound == 0 {
        return Err(Refused::Fault(ts.len()));
    }
    match ts {
        [] => Err(Refused::Fault(0)),
        [
            first @ Terminal {
                symbol: Symbol::Keyword(Keyword::FetchAndAdd),
                ..
            },
            rest @ ..,
        ] => read_fetch_add(alloc, bound, depth, first, rest),
        [
            first @ Terminal {
                symbol: Symbol::Keyword(Keyword::CompareAndSwap),
                ..
            },
            rest @ ..,
        ] => read_compare_swap(alloc, bound, depth, first, rest),
        [
            Terminal {
                symbol: Symbol::Name,
                ..
            },
            ..
        ] => read_named_value(alloc, bound, depth, ts),
        _ => read_plain(alloc, bound, depth, ts),
    }
}
