//! Expressions among the tokens of a text.
ghost use Rattle.std.specs.Prelude.{◌≡◌, ◌≢◌, ◌≤◌, ◌<◌, ◌+◌, ◌-◌, ◌^◌, IsTrue, IfOk, IfErr, length, take, drop};
ghost use Rattle.mm_lexer.specs.Tokens.{AreTokens};
ghost use Rattle.mm_parse_expr.specs.Faults.{IsFaultBefore, Parses, Refuses};
ghost use Rattle.mm_parse_expr.specs.Grammar.{IsExpression};
ghost use Rattle.mm_parse_expr.specs.reading.ExprReading.{lower, expr_of, GivesLeft};

use crate::fault::{ParseFault, fault_at};
use crate::reading::read_expr;
use crate::terminal::{Terminal, terminals};
use mm_lexer::Token;
use mm_reading::Refused;
use mm_tree::Expr;
use std::alloc::Global;

/// How many expressions may be open, one within another, before memory is wanting: the stack is memory too. So many take
/// less than 4 MiB of it.
pub const DEPTH: u32 = 800;

/// How many tokens an expression may have before memory is wanting. A tree is no higher than this.
pub const TOKENS: usize = 10_000;

/// The tokens from a position on that are looked at.
fn window(tokens: &[Token], from: usize) -> &[Token]
    requires { from ≤ length tokens.now }
    ensures { result.now ≡ take TOKENS (drop from tokens.now) }
{
    let (_, behind) = tokens.split_at(from);
    let (seen, _) = behind.split_at(behind.len().min(TOKENS));
    seen
}

/// The position behind what was read: all but `left` of the `seen` tokens. Where the last of them was reached and there
/// are more, memory is wanting.
fn position(from: usize, seen: usize, left: usize, is_cut: bool) -> Result<usize, ParseFault>
    requires { from + seen < 2 ^ 64 }
    ensures position { IfOk result (λ end. end ≡ from + (seen - left)) }
    ensures not_cut { IfOk result (λ _. IsTrue is_cut → left ≢ 0) }
    ensures fault { IfErr result (λ e. e ≡ ParseFault.NoMemory) }
{
    if is_cut && left == 0 {
        return Err(ParseFault::NoMemory);
    }
    Ok(from + seen.saturating_sub(left))
}

/// The fault where nothing was read. Where all of these terminals were used up and there are more tokens, memory is
/// wanting.
fn fault_before<'a>(
    alloc: Global,
    text: &str,
    terminals: &'a [Terminal<'a>],
    refused: Refused,
    is_cut: bool,
) -> ParseFault
    requires { length text.now ≤ 16777216 }
    ensures { result ≢ ParseFault.NoMemory →
        IsFaultBefore text.now terminals.now refused is_cut result }
{
    match refused {
        Refused::Memory => ParseFault::NoMemory,
        Refused::Fault(left) => {
            if is_cut && left == 0 {
                return ParseFault::NoMemory;
            }
            let (_, rest) = terminals.split_at(terminals.len().saturating_sub(left));
            fault_at(alloc, text, rest)
        }
    }
}

/// An expression, and how many of the terminals stand behind it.
fn expr_run<'a>(alloc: Global, terminals: &'a [Terminal<'a>]) -> Result<(Expr, usize), Refused>
    ensures { GivesLeft result (expr_of (lower (length terminals.now + 1)) terminals.now) }
{
    let (expr, rest) = read_expr(alloc, terminals.len() + 1, DEPTH, terminals)?;
    Ok((expr.into_inner(), rest.len()))
}

/// The longest run of tokens from a position on that begins an expression. Where it is one, this is its tree and the
/// position behind it. Else the fault is at the token behind the run, or at the end of the text where there is none.
/// `TooDeep` is none of this function's faults.
pub fn parse_expr(
    alloc: Global,
    text: &str,
    tokens: &[Token],
    from: usize,
) -> Result<(Expr, usize), ParseFault>
    requires size { length text.now ≤ 16777216 }
    requires tokens { AreTokens text.now tokens.now }
    requires from { from ≤ length tokens.now }
    ensures expr { IfOk result (Parses IsExpression text.now tokens.now from) }
    ensures fault { IfErr result (λ e. e ≢ ParseFault.NoMemory →
        Refuses IsExpression text.now tokens.now from e) }
{
    let seen = window(tokens, from);
    let is_cut = seen.len() < tokens.len() - from;
    let terminals = terminals(alloc, text, seen)?;
    let all = terminals.as_slice();
    match expr_run(alloc, all) {
        Ok((expr, left)) => Ok((expr, position(from, seen.len(), left, is_cut)?)),
        Err(refused) => Err(fault_before(alloc, text, all, refused, is_cut)),
    }
}
