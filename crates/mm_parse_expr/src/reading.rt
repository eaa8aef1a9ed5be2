//! Recursive descent.
ghost use Rattle.std.specs.Prelude.{◌≡◌, IfOk, MatchOption};
ghost use Rattle.mm_reading.specs.Gives.{Gives, GivesUnit};
ghost use Rattle.mm_parse_expr.specs.Grammar as grammar;
ghost use Rattle.mm_parse_expr.specs.reading.ExprReading as spec;

use crate::symbol::Symbol;
use crate::terminal::Terminal;
use mm_goto::{At, Binary, Ident, NoMemory, Unary};
use mm_reading::{Refused, keep};
use mm_tree::{Expr, Node, Word};
use sqlite_items::Boxed;
use std::alloc::Global;

/// `)`.
#[tactic(auto, unfolding(crate::specs::reading::ExprReading::close, mm_reading::specs::Parsing::token, mm_reading::specs::Parsing::peek, mm_reading::specs::Parsing::skip, mm_reading::specs::Parsing::pure, mm_reading::specs::Parsing::fail))]
pub fn read_close<'a>(ts: &'a [Terminal<'a>]) -> Result<&'a [Terminal<'a>], Refused>
    ensures { GivesUnit result (spec.close ts.now) }
{
    match ts {
        [
            Terminal {
                symbol: Symbol::Close,
                ..
            },
            rest @ ..,
        ] => Ok(rest),
        _ => Err(Refused::Fault(ts.len())),
    }
}

/// A name.
#[tactic(auto, unfolding(crate::specs::reading::ExprReading::name_word, mm_reading::specs::Parsing::token, mm_reading::specs::Parsing::peek, mm_reading::specs::Parsing::skip, mm_reading::specs::Parsing::pure, mm_reading::specs::Parsing::fail))]
pub fn read_name<'a>(
    alloc: Global,
    ts: &'a [Terminal<'a>],
) -> Result<(Word, &'a [Terminal<'a>]), Refused>
    ensures { Gives result (spec.name_word ts.now) }
{
    match ts {
        [
            Terminal {
                symbol: Symbol::Name,
                at,
                spelling,
            },
            rest @ ..,
        ] => {
            let name = Ident::copy_of(alloc, spelling.text())?;
            Ok((Word { at: *at, name }, rest))
        }
        _ => Err(Refused::Fault(ts.len())),
    }
}

/// How loosely a binary operator binds, from 0 on.
fn looseness(op: Binary) -> u32
    ensures { result ≡ grammar.looseness op }
{
    match op {
        Binary::Mul | Binary::Div | Binary::Rem => 0,
        Binary::Add | Binary::Sub => 1,
        Binary::Shl | Binary::Shr => 2,
        Binary::Lt | Binary::Le | Binary::Gt | Binary::Ge => 3,
        Binary::Eq | Binary::Ne => 4,
        Binary::And => 5,
        Binary::Xor => 6,
        Binary::Or => 7,
        Binary::Land => 8,
        Binary::Lor => 9,
    }
}

fn joins(level: u32, symbol: Symbol) -> Option<Binary>
    ensures { result ≡ spec.joins level symbol }
{
    match symbol {
        Symbol::Operator(op) if looseness(op) == level => Some(op),
        _ => None,
    }
}

/// The next operator where it is of this looseness, and what stands behind it.
fn next_operator<'a>(level: u32, ts: &'a [Terminal<'a>]) -> Option<(Binary, &'a [Terminal<'a>])>
    ensures { MatchOption result (spec.HasNoOperator level ts.now) (λ x. spec.HasOperator level ts.now x.0 x.1.now) }
{
    match ts {
        [first, rest @ ..] => match joins(level, first.symbol) {
            Some(op) => Some((op, rest)),
            None => None,
        },
        [] => None,
    }
}

fn binary_tree(
    alloc: Global,
    op: Binary,
    a: Boxed<Expr>,
    b: Boxed<Expr>,
) -> Result<Boxed<Expr>, NoMemory>
    ensures { IfOk result (λ e. e ≡ grammar.binary_tree op a b) }
{
    let at = a.get().at;
    Expr::boxed(alloc, at, Node::Bin(op, a, b))
}

fn choice_tree(
    alloc: Global,
    c: Boxed<Expr>,
    a: Boxed<Expr>,
    b: Boxed<Expr>,
) -> Result<Boxed<Expr>, NoMemory>
    ensures { IfOk result (λ e. e ≡ grammar.choice_tree c a b) }
{
    let at = c.get().at;
    Expr::boxed(alloc, at, Node::Cond(c, a, b))
}

fn element_tree(
    alloc: Global,
    at: At,
    name: &str,
    index: Option<Boxed<Expr>>,
) -> Result<Boxed<Expr>, NoMemory>
    ensures { IfOk result (λ e. e ≡ spec.element_tree at name.now index) }
{
    let name = Ident::copy_of(alloc, name)?;
    match index {
        Some(index) => Expr::boxed(alloc, at, Node::Index(name, index)),
        None => Expr::boxed(alloc, at, Node::Name(name)),
    }
}

/// The address of a name, or of an element where an index stands behind it.
pub fn address_tree(
    alloc: Global,
    at: At,
    name: Word,
    index: Option<Boxed<Expr>>,
) -> Result<Boxed<Expr>, NoMemory>
    ensures { IfOk result (λ e. e ≡ spec.address_tree at name index) }
{
    match index {
        Some(index) => Expr::boxed(alloc, at, Node::AddrIndex(name, index)),
        None => Expr::boxed(alloc, at, Node::AddrName(name)),
    }
}

/// `]`.
#[tactic(auto, unfolding(crate::specs::reading::ExprReading::close_bracket, mm_reading::specs::Parsing::token, mm_reading::specs::Parsing::peek, mm_reading::specs::Parsing::skip, mm_reading::specs::Parsing::pure, mm_reading::specs::Parsing::fail))]
pub fn read_close_bracket<'a>(ts: &'a [Terminal<'a>]) -> Result<&'a [Terminal<'a>], Refused>
    ensures { GivesUnit result (spec.close_bracket ts.now) }
{
    match ts {
        [
            Terminal {
                symbol: Symbol::CloseBracket,
                ..
            },
            rest @ ..,
        ] => Ok(rest),
        _ => Err(Refused::Fault(ts.len())),
    }
}

#[tactic(auto, unfolding(crate::specs::reading::ExprReading::colon, mm_reading::specs::Parsing::token, mm_reading::specs::Parsing::peek, mm_reading::specs::Parsing::skip, mm_reading::specs::Parsing::pure, mm_reading::specs::Parsing::fail))]
fn read_colon<'a>(ts: &'a [Terminal<'a>]) -> Result<&'a [Terminal<'a>], Refused>
    ensures { GivesUnit result (spec.colon ts.now) }
{
    match ts {
        [
            Terminal {
                symbol: Symbol::Colon,
                ..
            },
            rest @ ..,
        ] => Ok(rest),
        _ => Err(Refused::Fault(ts.len())),
    }
}

/// An index in brackets, where one stands there. It wants memory where `depth` is 0, and `bound` is above the number of
/// tokens.
#[cycle(reading)]
#[tactic(auto, unfolding(crate::specs::reading::ExprReading::index, mm_reading::specs::Parsing::peek, mm_reading::specs::Parsing::skip, mm_reading::specs::Parsing::pure))]
pub fn read_index<'a>(
    alloc: Global,
    bound: usize,
    depth: u32,
    ts: &'a [Terminal<'a>],
) -> Result<(Option<Boxed<Expr>>, &'a [Terminal<'a>]), Refused>
    ensures { Gives result (spec.index (spec.lower bound) ts.now) }
{
    match ts {
        [
            Terminal {
                symbol: Symbol::OpenBracket,
                ..
            },
            rest @ ..,
        ] => {
            let (index, rest) = read_expr(alloc, bound, depth, rest)?;
            keep(Some(index), read_close_bracket(rest))
        }
        _ => Ok((None, ts)),
    }
}

#[cycle(reading)]
#[tactic(auto, unfolding(crate::specs::reading::ExprReading::primary, mm_reading::specs::Parsing::peek, mm_reading::specs::Parsing::skip, mm_reading::specs::Parsing::pure, mm_reading::specs::Parsing::fail))]
fn read_primary<'a>(
    alloc: Global,
    bound: usize,
    depth: u32,
    ts: &'a [Terminal<'a>],
) -> Result<(Boxed<Expr>, &'a [Terminal<'a>]), Refused>
    ensures { Gives result (spec.primary (spec.lower bound) ts.now) }
{
    let [first, rest @ ..] = ts else {
        return Err(Refused::Fault(0));
    };
    let at = first.at;
    match first.symbol {
        Symbol::Number(n) => Ok((Expr::boxed(alloc, at, Node::Number(n))?, rest)),
        Symbol::Null => Ok((Expr::boxed(alloc, at, Node::Null)?, rest)),
        Symbol::Name => {
            let (index, rest) = read_index(alloc, bound, depth, rest)?;
            Ok((element_tree(alloc, at, first.spelling.text(), index)?, rest))
        }
        Symbol::Open => {
            let (inner, rest) = read_expr(alloc, bound, depth, rest)?;
            keep(inner, read_close(rest))
        }
        _ => Err(Refused::Fault(ts.len())),
    }
}

#[cycle(reading)]
#[tactic(auto, unfolding(crate::specs::reading::ExprReading::signed, mm_reading::specs::Parsing::pure))]
fn read_signed<'a>(
    alloc: Global,
    bound: usize,
    depth: u32,
    at: At,
    op: Unary,
    ts: &'a [Terminal<'a>],
) -> Result<(Boxed<Expr>, &'a [Terminal<'a>]), Refused>
    ensures { Gives result (spec.signed (spec.lower bound) at op ts.now) }
{
    let (operand, rest) = read_unary(alloc, bound, depth, ts)?;
    Ok((Expr::boxed(alloc, at, Node::Un(op, operand))?, rest))
}

#[cycle(reading)]
#[tactic(auto, unfolding(crate::specs::reading::ExprReading::pointed, mm_reading::specs::Parsing::pure))]
fn read_pointed<'a>(
    alloc: Global,
    bound: usize,
    depth: u32,
    at: At,
    ts: &'a [Terminal<'a>],
) -> Result<(Boxed<Expr>, &'a [Terminal<'a>]), Refused>
    ensures { Gives result (spec.pointed (spec.lower bound) at ts.now) }
{
    let (pointer, rest) = read_unary(alloc, bound, depth, ts)?;
    Ok((Expr::boxed(alloc, at, Node::Deref(pointer))?, rest))
}

#[cycle(reading)]
#[tactic(auto, unfolding(crate::specs::reading::ExprReading::address, mm_reading::specs::Parsing::pure))]
fn read_address<'a>(
    alloc: Global,
    bound: usize,
    depth: u32,
    at: At,
    ts: &'a [Terminal<'a>],
) -> Result<(Boxed<Expr>, &'a [Terminal<'a>]), Refused>
    ensures { Gives result (spec.address (spec.lower bound) at ts.now) }
{
    let (name, rest) = read_name(alloc, ts)?;
    let (index, rest) = read_index(alloc, bound, depth, rest)?;
    Ok((address_tree(alloc, at, name, index)?, rest))
}

/// A unary expression. It wants memory where `depth` is 0, and `bound` is above the number of tokens.
#[cycle(reading)]
#[tactic(auto, unfolding(crate::specs::reading::ExprReading::lower, crate::specs::reading::ExprReading::unary, crate::specs::reading::ExprReading::primary, mm_reading::specs::Parsing::peek, mm_reading::specs::Parsing::skip, mm_reading::specs::Parsing::fail))]
pub fn read_unary<'a>(
    alloc: Global,
    bound: usize,
    depth: u32,
    ts: &'a [Terminal<'a>],
) -> Result<(Boxed<Expr>, &'a [Terminal<'a>]), Refused>
    ensures { Gives result (spec.unary_of (spec.lower bound) ts.now) }
{
    if depth == 0 {
        return Err(Refused::Memory);
    }
    if bound == 0 {
        return Err(Refused::Fault(ts.len()));
    }
    read_open_unary(alloc, bound - 1, depth - 1, ts)
}

#[cycle(reading)]
#[tactic(auto, unfolding(crate::specs::reading::ExprReading::unary, crate::specs::reading::ExprReading::primary, mm_reading::specs::Parsing::peek, mm_reading::specs::Parsing::skip, mm_reading::specs::Parsing::fail))]
fn read_open_unary<'a>(
    alloc: Global,
    bound: usize,
    depth: u32,
    ts: &'a [Terminal<'a>],
) -> Result<(Boxed<Expr>, &'a [Terminal<'a>]), Refused>
    ensures { Gives result (spec.unary (spec.lower bound) ts.now) }
{
    let [first, rest @ ..] = ts else {
        return Err(Refused::Fault(0));
    };
    let at = first.at;
    match first.symbol {
        Symbol::Operator(Binary::Sub) => read_signed(alloc, bound, depth, at, Unary::Neg, rest),
        Symbol::Operator(Binary::Add) => read_signed(alloc, bound, depth, at, Unary::Plus, rest),
        Symbol::Not => read_signed(alloc, bound, depth, at, Unary::Not, rest),
        Symbol::Flip => read_signed(alloc, bound, depth, at, Unary::Flip, rest),
        Symbol::Operator(Binary::Mul) => read_pointed(alloc, bound, depth, at, rest),
        Symbol::Operator(Binary::And) => read_address(alloc, bound, depth, at, rest),
        _ => read_primary(alloc, bound, depth, ts),
    }
}

#[cycle(reading)]
#[tactic(auto, unfolding(crate::specs::reading::ExprReading::level, crate::specs::reading::ExprReading::more))]
fn read_level<'a>(
    alloc: Global,
    bound: usize,
    depth: u32,
    level: u32,
    ts: &'a [Terminal<'a>],
) -> Result<(Boxed<Expr>, &'a [Terminal<'a>]), Refused>
    ensures { Gives result (spec.level (spec.lower bound) level ts.now) }
{
    if level == 0 {
        return read_open_unary(alloc, bound, depth, ts);
    }
    let (first, rest) = read_level(alloc, bound, depth, level - 1, ts)?;
    read_more(alloc, bound, depth, level - 1, first, rest)
}

#[cycle(reading)]
#[tactic(auto, unfolding(crate::specs::reading::ExprReading::lower, mm_reading::specs::Parsing::pure))]
fn read_more<'a>(
    alloc: Global,
    bound: usize,
    depth: u32,
    level: u32,
    first: Boxed<Expr>,
    ts: &'a [Terminal<'a>],
) -> Result<(Boxed<Expr>, &'a [Terminal<'a>]), Refused>
    ensures { Gives result (spec.more (spec.lower bound) level first ts.now) }
{
    let Some((op, rest)) = next_operator(level, ts) else {
        return Ok((first, ts));
    };
    if depth == 0 {
        return Err(Refused::Memory);
    }
    let (second, rest) = read_level(alloc, bound, depth, level, rest)?;
    let joined = binary_tree(alloc, op, first, second)?;
    if bound == 0 {
        return Ok((joined, rest));
    }
    read_more(alloc, bound - 1, depth - 1, level, joined, rest)
}

#[cycle(reading)]
#[tactic(auto, unfolding(crate::specs::reading::ExprReading::choice, mm_reading::specs::Parsing::peek, mm_reading::specs::Parsing::skip, mm_reading::specs::Parsing::pure))]
fn read_choice<'a>(
    alloc: Global,
    bound: usize,
    depth: u32,
    test: Boxed<Expr>,
    ts: &'a [Terminal<'a>],
) -> Result<(Boxed<Expr>, &'a [Terminal<'a>]), Refused>
    ensures { Gives result (spec.choice (spec.lower bound) test ts.now) }
{
    match ts {
        [
            Terminal {
                symbol: Symbol::Question,
                ..
            },
            rest @ ..,
        ] => {
            let (then, rest) = read_expr(alloc, bound, depth, rest)?;
            let rest = read_colon(rest)?;
            let (other, rest) = read_expr(alloc, bound, depth, rest)?;
            Ok((choice_tree(alloc, test, then, other)?, rest))
        }
        _ => Ok((test, ts)),
    }
}

/// An expression. It wants memory where `depth` is 0, and `bound` is above the number of tokens.
#[cycle(reading)]
#[tactic(auto, unfolding(crate::specs::reading::ExprReading::lower, crate::specs::reading::ExprReading::expr, mm_reading::specs::Parsing::fail))]
pub fn read_expr<'a>(
    alloc: Global,
    bound: usize,
    depth: u32,
    ts: &'a [Terminal<'a>],
) -> Result<(Boxed<Expr>, &'a [Terminal<'a>]), Refused>
    ensures { Gives result (spec.expr_of (spec.lower bound) ts.now) }
{
    if depth == 0 {
        return Err(Refused::Memory);
    }
    if bound == 0 {
        return Err(Refused::Fault(ts.len()));
    }
    let (test, rest) = read_level(alloc, bound - 1, depth - 1, 10, ts)?;
    read_choice(alloc, bound - 1, depth - 1, test, rest)
}
