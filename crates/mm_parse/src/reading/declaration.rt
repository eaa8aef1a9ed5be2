//! Declarations of local variables.
ghost use Rattle.std.specs.Prelude.{◌≡◌};
ghost use Rattle.mm_reading.specs.Gives.{Gives};
ghost use Rattle.mm_reading.specs.Parsing.{head};
ghost use Rattle.mm_parse.specs.reading.Begun.{begun};
ghost use Rattle.mm_grammar.specs.reading.StatementReading as spec;

use super::list::{Part, read_list};
use super::marks::{read_int_word, read_semicolon, read_star};
use super::value::read_value;
use mm_parse_expr::{Keyword, Symbol, Terminal, read_name};
use mm_reading::{Refused, keep};
use mm_tree::{Local, StmtNode, Word};
use std::alloc::Global;

/// A variable that is declared.
struct LocalItem;

impl Part for LocalItem {
    type Value = Local;

    ghost item = { spec.local_item };

    fn read<'a>(
        alloc: Global,
        bound: usize,
        depth: u32,
        ts: &'a [Terminal<'a>],
    ) -> Result<(Local, &'a [Terminal<'a>]), Refused> {
        read_local_item(alloc, bound, depth, ts)
    }
}

/// A name in a list of names.
pub struct NameItem;

impl Part for NameItem {
    type Value = Word;

    ghost item = { spec.name_item };

    fn read<'a>(
        alloc: Global,
        bound: usize,
        depth: u32,
        ts: &'a [Terminal<'a>],
    ) -> Result<(Word, &'a [Terminal<'a>]), Refused> {
        read_name(alloc, ts)
    }
}

/// What stands behind the name of a variable.
#[tactic(auto, unfolding(mm_reading::specs::Parsing::skip, mm_reading::specs::Parsing::pure))]
fn read_local<'a>(
    alloc: Global,
    bound: usize,
    depth: u32,
    pointer: bool,
    name: Word,
    ts: &'a [Terminal<'a>],
) -> Result<(Local, &'a [Terminal<'a>]), Refused>
    ensures { Gives result (spec.local_at bound pointer name (head ts.now) ts.now) }
{
    let Word { at, name } = name;
    match ts {
        [
            Terminal {
                symbol: Symbol::Assign,
                ..
            },
            rest @ ..,
        ] => {
            let (value, rest) = read_value(alloc, bound, depth, rest)?;
            let value = Some(value);
            Ok((
                Local {
                    at,
                    pointer,
                    name,
                    value,
                },
                rest,
            ))
        }
        _ => Ok((
            Local {
                at,
                pointer,
                name,
                value: None,
            },
            ts,
        )),
    }
}

#[tactic(auto, unfolding(mm_grammar::specs::reading::StatementReading::local_item, mm_reading::specs::Parsing::peek))]
fn read_local_item<'a>(
    alloc: Global,
    bound: usize,
    depth: u32,
    ts: &'a [Terminal<'a>],
) -> Result<(Local, &'a [Terminal<'a>]), Refused>
    ensures { Gives result (spec.local_item bound ts.now) }
{
    let (pointer, rest) = read_star(ts);
    let (name, rest) = read_name(alloc, rest)?;
    read_local(alloc, bound, depth, pointer, name, rest)
}

/// What stands behind `int`.
#[tactic(auto, unfolding(mm_grammar::specs::reading::StatementReading::ints, mm_reading::specs::Parsing::pure))]
fn read_ints<'a>(
    alloc: Global,
    bound: usize,
    depth: u32,
    ts: &'a [Terminal<'a>],
) -> Result<(StmtNode, &'a [Terminal<'a>]), Refused>
    ensures { Gives result (spec.ints bound ts.now) }
{
    let (locals, rest) = read_list::<LocalItem>(alloc, bound, depth, ts)?;
    keep(StmtNode::Declare(locals), read_semicolon(rest))
}

/// What stands behind `pthread_t`.
#[tactic(auto, unfolding(mm_grammar::specs::reading::StatementReading::threads, mm_reading::specs::Parsing::pure))]
fn read_threads<'a>(
    alloc: Global,
    bound: usize,
    depth: u32,
    ts: &'a [Terminal<'a>],
) -> Result<(StmtNode, &'a [Terminal<'a>]), Refused>
    ensures { Gives result (spec.threads bound ts.now) }
{
    let (names, rest) = read_list::<NameItem>(alloc, bound, depth, ts)?;
    keep(StmtNode::DeclareThread(names), read_semicolon(rest))
}

/// What a declaration goes on with behind its first token.
pub fn read_declaration<'a>(
    alloc: Global,
    bound: usize,
    depth: u32,
    first: &Terminal<'a>,
    ts: &'a [Terminal<'a>],
) -> Result<(StmtNode, &'a [Terminal<'a>]), Refused>
    ensures { Gives result (begun first.now (spec.declaration_by bound first.now.symbol) ts.now) }
{
    match first.symbol {
        Symbol::Keyword(Keyword::Int) => read_ints(alloc, bound, depth, ts),
        Symbol::Keyword(Keyword::Volatile) => {
            let rest = read_int_word(ts)?;
            read_ints(alloc, bound, depth, rest)
        }
        Symbol::Keyword(Keyword::Thread) => read_threads(alloc, bound, depth, ts),
        _ => Err(Refused::Fault(ts.len() + 1)),
    }
}
