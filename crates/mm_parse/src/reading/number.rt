//! Numbers and initialisers.
ghost use Rattle.std.specs.Prelude.{◌≡◌, IfOk};
ghost use Rattle.mm_reading.specs.Gives.{Gives};
ghost use Rattle.mm_reading.specs.Parsing.{head};
ghost use Rattle.mm_grammar.specs.ProgramGrammar as grammar;
ghost use Rattle.mm_grammar.specs.reading.ProgramReading as spec;

use mm_goto::{At, Binary, NoMemory};
use mm_parse_expr::{Symbol, Terminal, address_tree, read_close_bracket, read_name};
use mm_reading::Refused;
use mm_tree::{Expr, Node};
use sqlite_items::Boxed;
use std::alloc::Global;

fn number_at(alloc: Global, at: At, number: i32) -> Result<Boxed<Expr>, NoMemory>
    ensures { IfOk result (λ e. e ≡ grammar.number_at at number) }
{
    Expr::boxed(alloc, at, Node::Number(number))
}

/// A number.
#[tactic(auto, unfolding(mm_grammar::specs::reading::ProgramReading::number, mm_reading::specs::Parsing::token, mm_reading::specs::Parsing::peek, mm_reading::specs::Parsing::skip, mm_reading::specs::Parsing::pure, mm_reading::specs::Parsing::fail))]
pub fn read_number<'a>(ts: &'a [Terminal<'a>]) -> Result<(i32, &'a [Terminal<'a>]), Refused>
    ensures { Gives result (spec.number ts.now) }
{
    let [first, rest @ ..] = ts else {
        return Err(Refused::Fault(0));
    };
    match first.symbol {
        Symbol::Number(n) => Ok((n, rest)),
        _ => Err(Refused::Fault(ts.len())),
    }
}

#[tactic(auto, unfolding(mm_grammar::specs::reading::ProgramReading::number_expr, mm_reading::specs::Parsing::token, mm_reading::specs::Parsing::peek, mm_reading::specs::Parsing::skip, mm_reading::specs::Parsing::pure, mm_reading::specs::Parsing::fail))]
fn read_number_expr<'a>(
    alloc: Global,
    ts: &'a [Terminal<'a>],
) -> Result<(Boxed<Expr>, &'a [Terminal<'a>]), Refused>
    ensures { Gives result (spec.number_expr ts.now) }
{
    let [first, rest @ ..] = ts else {
        return Err(Refused::Fault(0));
    };
    match first.symbol {
        Symbol::Number(n) => Ok((number_at(alloc, first.at, n)?, rest)),
        _ => Err(Refused::Fault(ts.len())),
    }
}

/// A number, or one behind `-`.
#[tactic(auto, unfolding(mm_reading::specs::Parsing::peek, mm_reading::specs::Parsing::skip, mm_reading::specs::Parsing::pure, mm_reading::specs::Parsing::fail))]
pub fn read_const<'a>(
    alloc: Global,
    ts: &'a [Terminal<'a>],
) -> Result<(Boxed<Expr>, &'a [Terminal<'a>]), Refused>
    ensures { Gives result (spec.const_at (head ts.now) ts.now) }
{
    let [first, rest @ ..] = ts else {
        return Err(Refused::Fault(0));
    };
    match first.symbol {
        Symbol::Number(n) => Ok((number_at(alloc, first.at, n)?, rest)),
        Symbol::Operator(Binary::Sub) => {
            let (number, rest) = read_number(rest)?;
            let negated = number_at(alloc, first.at, number.wrapping_neg())?;
            Ok((negated, rest))
        }
        _ => Err(Refused::Fault(ts.len())),
    }
}

/// What stands behind `&`.
#[tactic(auto, unfolding(mm_grammar::specs::reading::ProgramReading::address, mm_reading::specs::Parsing::peek, mm_reading::specs::Parsing::skip, mm_reading::specs::Parsing::pure))]
fn read_address<'a>(
    alloc: Global,
    first: &Terminal<'a>,
    ts: &'a [Terminal<'a>],
) -> Result<(Boxed<Expr>, &'a [Terminal<'a>]), Refused>
    ensures { Gives result (spec.address first.now ts.now) }
{
    let (name, ts) = read_name(alloc, ts)?;
    match ts {
        [
            Terminal {
                symbol: Symbol::OpenBracket,
                ..
            },
            rest @ ..,
        ] => {
            let (index, rest) = read_number_expr(alloc, rest)?;
            let rest = read_close_bracket(rest)?;
            Ok((address_tree(alloc, first.at, name, Some(index))?, rest))
        }
        _ => Ok((address_tree(alloc, first.at, name, None)?, ts)),
    }
}

/// The initialiser of a variable.
#[tactic(auto, unfolding(mm_grammar::specs::reading::ProgramReading::init, mm_reading::specs::Parsing::peek, mm_reading::specs::Parsing::skip, mm_reading::specs::Parsing::pure, mm_reading::specs::Parsing::fail))]
pub fn read_init<'a>(
    alloc: Global,
    ts: &'a [Terminal<'a>],
) -> Result<(Boxed<Expr>, &'a [Terminal<'a>]), Refused>
    ensures { Gives result (spec.init ts.now) }
{
    match ts {
        [
            Terminal {
                symbol: Symbol::Null,
                at,
                ..
            },
            rest @ ..,
        ] => Ok((Expr::boxed(alloc, *at, Node::Null)?, rest)),
        [
            first @ Terminal {
                symbol: Symbol::Operator(Binary::And),
                ..
            },
            rest @ ..,
        ] => read_address(alloc, first, rest),
        _ => read_const(alloc, ts),
    }
}
