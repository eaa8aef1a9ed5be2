//! How statements begin: what is read before a statement or block that they hold.
ghost use Rattle.mm_reading.specs.Gives.{Gives};
ghost use Rattle.mm_parse.specs.reading.Begun as begun;
ghost use Rattle.mm_parse.specs.reading.Openings as openings;

use super::declaration::read_declaration;
use super::header::{read_header, read_test};
use super::simple::{read_call_ended, read_named_set, read_simple};
use mm_goto::{At, Ident};
use mm_parse_expr::{Keyword, Symbol, Terminal};
use mm_reading::Refused;
use mm_tree::{Expr, Stmt, StmtNode, Word};
use sqlite_items::Boxed;
use std::alloc::Global;

/// What stands before the one statement that is held.
#[derive(Drop)]
pub enum Head {
    While(Boxed<Expr>),
    Do,
    /// What the loop begins with, its test, and what it does between its rounds.
    For(Option<Boxed<Stmt>>, Boxed<Expr>, Option<Boxed<Stmt>>),
    Label(Word),
}

/// How a statement begins.
#[derive(Drop)]
pub enum Opening {
    /// It holds no other, and is read to its end.
    Whole(StmtNode),
    /// `{`.
    Block,
    /// `if` and the test.
    When(Boxed<Expr>),
    Holds(Head),
}

/// A statement that holds no other.
#[tactic(auto, using(crate::proofs::Opened::whole_begun), unfolding(mm_reading::specs::Parsing::pure))]
fn read_whole<'a>(
    alloc: Global,
    bound: usize,
    depth: u32,
    first: &Terminal<'a>,
    ts: &'a [Terminal<'a>],
) -> Result<(Opening, &'a [Terminal<'a>]), Refused>
    ensures { Gives result (begun.begun first.now (openings.whole_of (openings.simple_by bound first.now.symbol first.now)) ts.now) }
{
    let (node, rest) = read_simple(alloc, bound, depth, first, ts)?;
    Ok((Opening::Whole(node), rest))
}

/// What stands behind a name: a call, the colon of a label, or an assignment.
#[tactic(auto, unfolding(crate::specs::reading::Openings::named, mm_reading::specs::Parsing::peek, mm_reading::specs::Parsing::skip, mm_reading::specs::Parsing::pure, mm_reading::specs::Parsing::fail))]
fn read_named<'a>(
    alloc: Global,
    bound: usize,
    depth: u32,
    first: &Terminal<'a>,
    ts: &'a [Terminal<'a>],
) -> Result<(Opening, &'a [Terminal<'a>]), Refused>
    ensures { Gives result (openings.named bound first.now ts.now) }
{
    match ts {
        [] => Err(Refused::Fault(0)),
        [
            Terminal {
                symbol: Symbol::Open,
                ..
            },
            rest @ ..,
        ] => {
            let (node, rest) = read_call_ended(alloc, bound, depth, first, rest)?;
            Ok((Opening::Whole(node), rest))
        }
        [
            Terminal {
                symbol: Symbol::Colon,
                ..
            },
            rest @ ..,
        ] => {
            let name = Ident::copy_of(alloc, first.spelling.text())?;
            let at = first.at;
            Ok((Opening::Holds(Head::Label(Word { at, name })), rest))
        }
        _ => {
            let (node, rest) = read_named_set(alloc, bound, depth, first, ts)?;
            Ok((Opening::Whole(node), rest))
        }
    }
}

/// What a statement begins with, behind its first token.
#[tactic(auto, unfolding(mm_reading::specs::Parsing::pure))]
fn read_begun<'a>(
    alloc: Global,
    bound: usize,
    depth: u32,
    first: &Terminal<'a>,
    ts: &'a [Terminal<'a>],
) -> Result<(Opening, &'a [Terminal<'a>]), Refused>
    ensures { Gives result (begun.begun first.now (openings.opening_by bound first.now.symbol first.now) ts.now) }
{
    match first.symbol {
        Symbol::OpenBrace => Ok((Opening::Block, ts)),
        Symbol::Name => read_named(alloc, bound, depth, first, ts),
        Symbol::Keyword(Keyword::If) => {
            let (test, rest) = read_test(alloc, bound, depth, ts)?;
            Ok((Opening::When(test), rest))
        }
        Symbol::Keyword(Keyword::While) => {
            let (test, rest) = read_test(alloc, bound, depth, ts)?;
            Ok((Opening::Holds(Head::While(test)), rest))
        }
        Symbol::Keyword(Keyword::Do) => Ok((Opening::Holds(Head::Do), ts)),
        Symbol::Keyword(Keyword::For) => {
            let ((begin, test, step), rest) = read_header(alloc, bound, depth, ts)?;
            Ok((Opening::Holds(Head::For(begin, test, step)), rest))
        }
        _ => read_whole(alloc, bound, depth, first, ts),
    }
}

/// What a declaration or statement begins with, behind its first token.
#[tactic(auto, unfolding(mm_reading::specs::Parsing::pure))]
fn read_part<'a>(
    alloc: Global,
    bound: usize,
    depth: u32,
    first: &Terminal<'a>,
    ts: &'a [Terminal<'a>],
) -> Result<(Opening, &'a [Terminal<'a>]), Refused>
    ensures { Gives result (begun.begun first.now (openings.part_by bound first.now.symbol first.now) ts.now) }
{
    match first.symbol {
        Symbol::Keyword(Keyword::Int | Keyword::Volatile | Keyword::Thread) => {
            let (node, rest) = read_declaration(alloc, bound, depth, first, ts)?;
            Ok((Opening::Whole(node), rest))
        }
        _ => read_begun(alloc, bound, depth, first, ts),
    }
}

/// What a statement begins with, and its place.
#[tactic(auto, unfolding(crate::specs::reading::Openings::opening, mm_reading::specs::Parsing::peek, mm_reading::specs::Parsing::skip, mm_reading::specs::Parsing::pure, mm_reading::specs::Parsing::fail))]
pub fn read_opening<'a>(
    alloc: Global,
    bound: usize,
    depth: u32,
    ts: &'a [Terminal<'a>],
) -> Result<((At, Opening), &'a [Terminal<'a>]), Refused>
    ensures { Gives result (openings.opening bound ts.now) }
{
    match ts {
        [] => Err(Refused::Fault(0)),
        [first, rest @ ..] => {
            let (opening, rest) = read_begun(alloc, bound, depth, first, rest)?;
            Ok(((first.at, opening), rest))
        }
    }
}

/// What the next declaration or statement of a block begins with, and its place, and `None` for the closing brace.
#[tactic(auto, unfolding(crate::specs::reading::Openings::next, mm_reading::specs::Parsing::peek, mm_reading::specs::Parsing::skip, mm_reading::specs::Parsing::pure, mm_reading::specs::Parsing::fail))]
pub fn read_next_opening<'a>(
    alloc: Global,
    bound: usize,
    depth: u32,
    ts: &'a [Terminal<'a>],
) -> Result<(Option<(At, Opening)>, &'a [Terminal<'a>]), Refused>
    ensures { Gives result (openings.next bound ts.now) }
{
    match ts {
        [] => Err(Refused::Fault(0)),
        [
            Terminal {
                symbol: Symbol::CloseBrace,
                ..
            },
            rest @ ..,
        ] => Ok((None, rest)),
        [first, rest @ ..] => {
            let (opening, rest) = read_part(alloc, bound, depth, first, rest)?;
            Ok((Some((first.at, opening)), rest))
        }
    }
}
