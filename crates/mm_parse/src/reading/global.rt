//! Global variables.
ghost use Rattle.std.specs.Prelude.{◌≡◌, false, IfOk};
ghost use Rattle.mm_reading.specs.Gives.{Gives};
ghost use Rattle.mm_reading.specs.Parsing.{head};
ghost use Rattle.mm_parse.specs.reading.BegunItems as begun;
ghost use Rattle.mm_tree.specs.Trees as trees;
ghost use Rattle.mm_grammar.specs.reading.ProgramReading as spec;

use super::list::{Part, read_list};
use super::marks::{read_close_brace, read_initializer, read_open_brace, read_star};
use super::number::{read_const, read_init, read_number};
use mm_goto::{List, NoMemory};
use mm_parse_expr::{Symbol, Terminal, read_close_bracket, read_name};
use mm_reading::{Refused, keep, pair};
use mm_tree::{Expr, Global as Variable, Word};
use sqlite_items::Boxed;
use std::alloc::Global;

/// A global variable that is declared.
pub struct GlobalItem;

impl Part for GlobalItem {
    type Value = Variable;

    ghost item = { spec.global_item };

    fn read<'a>(
        alloc: Global,
        bound: usize,
        depth: u32,
        ts: &'a [Terminal<'a>],
    ) -> Result<(Variable, &'a [Terminal<'a>]), Refused> {
        read_global_item(alloc, bound, depth, ts)
    }
}

/// A number in the initialiser of an array.
struct ConstItem;

impl Part for ConstItem {
    type Value = Expr;

    ghost item = { spec.const_item };

    fn read<'a>(
        alloc: Global,
        bound: usize,
        depth: u32,
        ts: &'a [Terminal<'a>],
    ) -> Result<(Expr, &'a [Terminal<'a>]), Refused> {
        let (number, rest) = read_const(alloc, ts)?;
        Ok((number.into_inner(), rest))
    }
}

/// A mutex that is declared.
pub struct MutexItem;

impl Part for MutexItem {
    type Value = Word;

    ghost item = { spec.mutex_item };

    #[tactic(auto, unfolding(mm_grammar::specs::reading::ProgramReading::mutex_item, mm_reading::specs::Parsing::peek, mm_reading::specs::Parsing::skip, mm_reading::specs::Parsing::pure))]
    fn read<'a>(
        alloc: Global,
        bound: usize,
        depth: u32,
        ts: &'a [Terminal<'a>],
    ) -> Result<(Word, &'a [Terminal<'a>]), Refused> {
        let (name, ts) = read_name(alloc, ts)?;
        match ts {
            [
                Terminal {
                    symbol: Symbol::Assign,
                    ..
                },
                rest @ ..,
            ] => keep(name, read_initializer(rest)),
            _ => Ok((name, ts)),
        }
    }
}

/// A variable that is no array, with its initialiser where it has one.
fn scalar_tree(
    alloc: Global,
    pointer: bool,
    name: Word,
    value: Option<Boxed<Expr>>,
) -> Result<Variable, NoMemory>
    ensures { IfOk result (λ g. g ≡ begun.scalar_tree pointer name value) }
{
    let Word { at, name } = name;
    let mut init = Vec::new(alloc);
    if let Some(value) = value {
        init.push(value.into_inner())?;
    }
    Ok(Variable {
        at,
        pointer,
        name,
        len: None,
        init: List::new(init),
    })
}

fn array_tree(name: Word, len: i32, init: List<Expr>) -> Variable
    ensures { result ≡ trees.global name.at false name.name (Some len) init }
{
    let Word { at, name } = name;
    Variable {
        at,
        pointer: false,
        name,
        len: Some(len),
        init,
    }
}

/// What stands behind the name of a variable that is no array.
#[tactic(auto, unfolding(mm_grammar::specs::reading::ProgramReading::scalar, mm_reading::specs::Parsing::peek, mm_reading::specs::Parsing::skip, mm_reading::specs::Parsing::pure))]
pub fn read_scalar<'a>(
    alloc: Global,
    pointer: bool,
    name: Word,
    ts: &'a [Terminal<'a>],
) -> Result<(Variable, &'a [Terminal<'a>]), Refused>
    ensures { Gives result (spec.scalar pointer name ts.now) }
{
    match ts {
        [
            Terminal {
                symbol: Symbol::Assign,
                ..
            },
            rest @ ..,
        ] => {
            let ((name, value), rest) = pair(name, read_init(alloc, rest))?;
            Ok((scalar_tree(alloc, pointer, name, Some(value))?, rest))
        }
        _ => Ok((scalar_tree(alloc, pointer, name, None)?, ts)),
    }
}

/// What stands behind the length of an array.
#[tactic(auto, unfolding(mm_reading::specs::Parsing::skip, mm_reading::specs::Parsing::pure))]
fn read_elements<'a>(
    alloc: Global,
    bound: usize,
    depth: u32,
    name: Word,
    len: i32,
    ts: &'a [Terminal<'a>],
) -> Result<(Variable, &'a [Terminal<'a>]), Refused>
    ensures { Gives result (spec.elements_at bound name len (head ts.now) ts.now) }
{
    match ts {
        [
            Terminal {
                symbol: Symbol::Assign,
                ..
            },
            rest @ ..,
        ] => {
            let (name, rest) = keep(name, read_open_brace(rest))?;
            let ((name, init), rest) = pair(
                name,
                read_list::<ConstItem>(alloc, bound, depth, rest),
            )?;
            keep(array_tree(name, len, init), read_close_brace(rest))
        }
        _ => Ok((array_tree(name, len, List::new(Vec::new(alloc))), ts)),
    }
}

/// What stands behind the name of an array and `[`.
#[tactic(auto, unfolding(mm_grammar::specs::reading::ProgramReading::array, mm_reading::specs::Parsing::peek))]
fn read_array<'a>(
    alloc: Global,
    bound: usize,
    depth: u32,
    name: Word,
    ts: &'a [Terminal<'a>],
) -> Result<(Variable, &'a [Terminal<'a>]), Refused>
    ensures { Gives result (spec.array bound name ts.now) }
{
    let ((name, len), rest) = pair(name, read_number(ts))?;
    let (name, rest) = keep(name, read_close_bracket(rest))?;
    read_elements(alloc, bound, depth, name, len, rest)
}

/// What stands behind a name without a star.
#[tactic(auto, unfolding(mm_grammar::specs::reading::ProgramReading::plain, mm_grammar::specs::reading::ProgramReading::scalar, mm_reading::specs::Parsing::peek, mm_reading::specs::Parsing::skip, mm_reading::specs::Parsing::pure))]
pub fn read_plain<'a>(
    alloc: Global,
    bound: usize,
    depth: u32,
    name: Word,
    ts: &'a [Terminal<'a>],
) -> Result<(Variable, &'a [Terminal<'a>]), Refused>
    ensures { Gives result (spec.plain bound name ts.now) }
{
    match ts {
        [
            Terminal {
                symbol: Symbol::OpenBracket,
                ..
            },
            rest @ ..,
        ] => read_array(alloc, bound, depth, name, rest),
        _ => read_scalar(alloc, false, name, ts),
    }
}

#[tactic(auto, unfolding(mm_grammar::specs::reading::ProgramReading::global_item))]
fn read_global_item<'a>(
    alloc: Global,
    bound: usize,
    depth: u32,
    ts: &'a [Terminal<'a>],
) -> Result<(Variable, &'a [Terminal<'a>]), Refused>
    ensures { Gives result (spec.global_item bound ts.now) }
{
    let (pointer, rest) = read_star(ts);
    let (name, rest) = read_name(alloc, rest)?;
    if pointer {
        read_scalar(alloc, true, name, rest)
    } else {
        read_plain(alloc, bound, depth, name, rest)
    }
}
