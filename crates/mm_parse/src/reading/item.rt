//! Items and programs.
ghost use Rattle.mm_reading.specs.Gives.{Gives as Reads};
ghost use Rattle.mm_reading.specs.Parsing.{head};
ghost use Rattle.mm_parse.specs.reading.Begun.{begun, GivesAll};
ghost use Rattle.mm_parse.specs.reading.BegunItems as part;
ghost use Rattle.mm_grammar.specs.reading.ProgramReading as spec;

use super::declaration::NameItem;
use super::function::{read_asked, read_external, read_void_item, read_with_params};
use super::global::{GlobalItem, MutexItem, read_plain, read_scalar};
use super::list::{onwards, read_list, read_others};
use super::marks::read_semicolon;
use mm_goto::{Binary, List};
use mm_parse_expr::{Keyword, Symbol, Terminal, read_name};
use mm_reading::{Refused, keep};
use mm_tree::{Gives, Global as Variable, Item, Tree, Word};
use std::alloc::Global;

/// The global variables behind the first, and `;`.
#[tactic(auto, using(crate::proofs::Items::with_first), unfolding(mm_reading::specs::Parsing::pure))]
fn read_globals<'a>(
    alloc: Global,
    bound: usize,
    depth: u32,
    first: Variable,
    ts: &'a [Terminal<'a>],
) -> Result<(Item, &'a [Terminal<'a>]), Refused>
    ensures { Reads result (part.globals_behind bound first ts.now) }
{
    let (globals, rest) = read_others::<GlobalItem>(alloc, bound, depth, first, ts)?;
    keep(Item::Globals(globals), read_semicolon(rest))
}

/// What stands behind `int` and a name.
#[tactic(auto, unfolding(mm_grammar::specs::reading::ProgramReading::globals, mm_reading::specs::Parsing::skip, mm_reading::specs::Parsing::fail))]
fn read_int_named<'a>(
    alloc: Global,
    bound: usize,
    depth: u32,
    may_ask: bool,
    may_run: bool,
    name: Word,
    ts: &'a [Terminal<'a>],
) -> Result<(Item, &'a [Terminal<'a>]), Refused>
    ensures { Reads result (spec.int_named_at bound may_ask may_run name (head ts.now) ts.now) }
{
    match ts {
        [] => Err(Refused::Fault(0)),
        [
            Terminal {
                symbol: Symbol::Open,
                ..
            },
            rest @ ..,
        ] => {
            if may_run {
                read_asked(alloc, bound, depth, may_ask, name, rest)
            } else {
                Err(Refused::Fault(ts.len()))
            }
        }
        _ => {
            let (first, rest) = read_plain(alloc, bound, depth, name, ts)?;
            read_globals(alloc, bound, depth, first, rest)
        }
    }
}

/// What stands behind `int *` and a name.
#[tactic(auto, unfolding(mm_grammar::specs::reading::ProgramReading::globals, mm_reading::specs::Parsing::skip, mm_reading::specs::Parsing::fail))]
fn read_pointer<'a>(
    alloc: Global,
    bound: usize,
    depth: u32,
    may_run: bool,
    name: Word,
    ts: &'a [Terminal<'a>],
) -> Result<(Item, &'a [Terminal<'a>]), Refused>
    ensures { Reads result (spec.pointer_at bound may_run name (head ts.now) ts.now) }
{
    match ts {
        [] => Err(Refused::Fault(0)),
        [
            Terminal {
                symbol: Symbol::Open,
                ..
            },
            rest @ ..,
        ] => {
            if may_run {
                read_with_params(alloc, bound, depth, Gives::Pointer, name, rest)
            } else {
                Err(Refused::Fault(ts.len()))
            }
        }
        _ => {
            let (first, rest) = read_scalar(alloc, true, name, ts)?;
            read_globals(alloc, bound, depth, first, rest)
        }
    }
}

/// What stands behind `int`.
#[tactic(auto, unfolding(mm_grammar::specs::reading::ProgramReading::int_item, mm_reading::specs::Parsing::peek, mm_reading::specs::Parsing::skip, mm_reading::specs::Parsing::fail))]
fn read_int_item<'a>(
    alloc: Global,
    bound: usize,
    depth: u32,
    may_ask: bool,
    may_run: bool,
    ts: &'a [Terminal<'a>],
) -> Result<(Item, &'a [Terminal<'a>]), Refused>
    ensures { Reads result (spec.int_item bound may_ask may_run ts.now) }
{
    match ts {
        [] => Err(Refused::Fault(0)),
        [
            Terminal {
                symbol: Symbol::Operator(Binary::Mul),
                ..
            },
            rest @ ..,
        ] => {
            let (name, rest) = read_name(alloc, rest)?;
            read_pointer(alloc, bound, depth, may_run, name, rest)
        }
        _ => {
            let (name, rest) = read_name(alloc, ts)?;
            read_int_named(alloc, bound, depth, may_ask, may_run, name, rest)
        }
    }
}

/// What stands behind `pthread_mutex_t`.
#[tactic(auto, unfolding(mm_grammar::specs::reading::ProgramReading::mutexes, mm_reading::specs::Parsing::pure))]
fn read_mutexes<'a>(
    alloc: Global,
    bound: usize,
    depth: u32,
    ts: &'a [Terminal<'a>],
) -> Result<(Item, &'a [Terminal<'a>]), Refused>
    ensures { Reads result (spec.mutexes bound ts.now) }
{
    let (names, rest) = read_list::<MutexItem>(alloc, bound, depth, ts)?;
    keep(Item::Mutexes(names), read_semicolon(rest))
}

/// What stands behind `pthread_t`.
#[tactic(auto, unfolding(mm_grammar::specs::reading::ProgramReading::threads, mm_reading::specs::Parsing::pure))]
fn read_threads<'a>(
    alloc: Global,
    bound: usize,
    depth: u32,
    ts: &'a [Terminal<'a>],
) -> Result<(Item, &'a [Terminal<'a>]), Refused>
    ensures { Reads result (spec.threads bound ts.now) }
{
    let (names, rest) = read_list::<NameItem>(alloc, bound, depth, ts)?;
    keep(Item::Threads(names), read_semicolon(rest))
}

/// What stands behind `static` or `volatile` and another token. It wants memory where `depth` is 0.
#[cycle(qualified)]
#[tactic(auto, unfolding(mm_reading::specs::Parsing::skip, mm_reading::specs::Parsing::fail))]
fn read_qualified_by<'a>(
    alloc: Global,
    bound: usize,
    depth: u32,
    may_run: bool,
    first: &Terminal<'a>,
    ts: &'a [Terminal<'a>],
) -> Result<(Item, &'a [Terminal<'a>]), Refused>
    ensures { Reads result (begun first.now (part.qualified_by bound may_run first.now.symbol) ts.now) }
{
    match first.symbol {
        Symbol::Keyword(Keyword::Static | Keyword::Volatile) => {
            read_qualified(alloc, bound, depth, false, ts)
        }
        Symbol::Keyword(Keyword::Int) => read_int_item(alloc, bound, depth, false, may_run, ts),
        Symbol::Keyword(Keyword::Mutex) => read_mutexes(alloc, bound, depth, ts),
        Symbol::Keyword(Keyword::Thread) => read_threads(alloc, bound, depth, ts),
        Symbol::Keyword(Keyword::Void) if may_run => read_void_item(alloc, bound, depth, ts),
        _ => Err(Refused::Fault(ts.len() + 1)),
    }
}

/// What stands behind `static` or `volatile`. It wants memory where `depth` is 0.
#[cycle(qualified)]
fn read_qualified<'a>(
    alloc: Global,
    bound: usize,
    depth: u32,
    may_run: bool,
    ts: &'a [Terminal<'a>],
) -> Result<(Item, &'a [Terminal<'a>]), Refused>
    ensures { Reads result (spec.qualified bound may_run ts.now) }
{
    if depth == 0 {
        return Err(Refused::Memory);
    }
    if bound == 0 {
        return Err(Refused::Fault(ts.len()));
    }
    match ts {
        [] => Err(Refused::Fault(0)),
        [first, rest @ ..] => read_qualified_by(alloc, bound - 1, depth - 1, may_run, first, rest),
    }
}

/// What an item goes on with behind its first token.
fn read_item<'a>(
    alloc: Global,
    bound: usize,
    depth: u32,
    first: &Terminal<'a>,
    ts: &'a [Terminal<'a>],
) -> Result<(Item, &'a [Terminal<'a>]), Refused>
    ensures { Reads result (begun first.now (spec.item_by bound first.now.symbol) ts.now) }
{
    match first.symbol {
        Symbol::Keyword(Keyword::Extern) => read_external(alloc, ts),
        Symbol::Keyword(Keyword::Static) => read_qualified(alloc, bound, depth, true, ts),
        Symbol::Keyword(Keyword::Volatile) => read_qualified(alloc, bound, depth, false, ts),
        Symbol::Keyword(Keyword::Int) => read_int_item(alloc, bound, depth, true, true, ts),
        Symbol::Keyword(Keyword::Mutex) => read_mutexes(alloc, bound, depth, ts),
        Symbol::Keyword(Keyword::Thread) => read_threads(alloc, bound, depth, ts),
        Symbol::Keyword(Keyword::Void) => read_void_item(alloc, bound, depth, ts),
        _ => Err(Refused::Fault(ts.len() + 1)),
    }
}

/// The next item, and `None` where no more tokens stand there.
#[tactic(auto, unfolding(crate::specs::reading::BegunItems::next_item, mm_reading::specs::Parsing::peek, mm_reading::specs::Parsing::skip, mm_reading::specs::Parsing::pure, mm_reading::specs::Parsing::fail))]
fn read_next_item<'a>(
    alloc: Global,
    bound: usize,
    depth: u32,
    ts: &'a [Terminal<'a>],
) -> Result<(Option<Item>, &'a [Terminal<'a>]), Refused>
    ensures { Reads result (part.next_item bound ts.now) }
{
    match ts {
        [] => Ok((None, ts)),
        [first, rest @ ..] => {
            let (item, rest) = read_item(alloc, bound, depth, first, rest)?;
            Ok((Some(item), rest))
        }
    }
}

fn read_items<'a>(
    alloc: Global,
    bound: usize,
    depth: u32,
    ts: &'a [Terminal<'a>],
) -> Result<(Vec<Item>, &'a [Terminal<'a>]), Refused>
    ensures { GivesAll result (spec.items bound ts.now) }
{
    let mut items = Vec::new(alloc);
    let mut left = bound;
    let mut rest = ts;
    while left > 0 {
        left -= 1;
        let (next, others) = read_next_item(alloc, left, depth, rest)?;
        let Some(item) = next else {
            return Ok((items, others));
        };
        items.push(item)?;
        rest = onwards(others);
    }
    Err(Refused::Fault(rest.len()))
}

/// A program. It wants memory where `depth` is too small for what is open, and `bound` is above the number of tokens.
#[tactic(auto, unfolding(mm_grammar::specs::reading::ProgramReading::program, mm_reading::specs::Parsing::pure))]
pub fn read_program<'a>(
    alloc: Global,
    bound: usize,
    depth: u32,
    ts: &'a [Terminal<'a>],
) -> Result<(Tree, &'a [Terminal<'a>]), Refused>
    ensures { Reads result (spec.program bound ts.now) }
{
    let (items, rest) = read_items(alloc, bound, depth, ts)?;
    let items = List::new(items);
    Ok((Tree { items }, rest))
}
