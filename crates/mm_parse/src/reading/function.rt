//! Functions, and what may stand in their place.
ghost use Rattle.std.specs.Prelude.{◌≡◌};
ghost use Rattle.mm_reading.specs.Gives.{Gives as Reads};
ghost use Rattle.mm_reading.specs.Parsing.{Parsed, head};
ghost use Rattle.mm_grammar.specs.reading.ProgramReading as spec;

use super::list::{Part, read_list};
use super::marks::{read_int_word, read_open_brace, read_open_mark, read_semicolon, read_star};
use super::statement::read_body;
use mm_goto::{Binary, Ident, List};
use mm_parse_expr::{Keyword, Symbol, Terminal, read_close, read_name};
use mm_reading::{Refused, keep, pair};
use mm_tree::{Gives, Item, Param, Word};
use std::alloc::Global;

/// A parameter.
struct ParamItem;

impl Part for ParamItem {
    type Value = Param;

    ghost item = { spec.param_item };

    #[tactic(auto, unfolding(mm_grammar::specs::reading::ProgramReading::param_item, mm_reading::specs::Parsing::pure))]
    fn read<'a>(
        alloc: Global,
        bound: usize,
        depth: u32,
        ts: &'a [Terminal<'a>],
    ) -> Result<(Param, &'a [Terminal<'a>]), Refused> {
        let rest = read_int_word(ts)?;
        let (pointer, rest) = read_star(rest);
        let (name, rest) = read_name(alloc, rest)?;
        Ok((Param { pointer, name }, rest))
    }
}

/// A block, which is the body of a function.
#[tactic(auto, unfolding(mm_grammar::specs::reading::ProgramReading::function, mm_reading::specs::Parsing::pure))]
fn read_function<'a>(
    alloc: Global,
    bound: usize,
    depth: u32,
    gives: Gives,
    name: Word,
    params: List<Param>,
    ts: &'a [Terminal<'a>],
) -> Result<(Item, &'a [Terminal<'a>]), Refused>
    ensures { Reads result (spec.function bound gives name params ts.now) }
{
    let (front, rest) = keep((name, params), read_open_brace(ts))?;
    let (((name, params), body), rest) = pair(front, read_body(alloc, bound, depth, rest))?;
    let Word { at, name } = name;
    Ok((
        Item::Function {
            at,
            gives,
            name,
            params,
            body: List::new(body),
        },
        rest,
    ))
}

/// The parameters of a function behind the open parenthesis, and the closing one.
#[tactic(auto, unfolding(mm_grammar::specs::reading::ProgramReading::params, mm_reading::specs::Parsing::peek, mm_reading::specs::Parsing::skip, mm_reading::specs::Parsing::pure, mm_reading::specs::Parsing::fail))]
fn read_params<'a>(
    alloc: Global,
    bound: usize,
    depth: u32,
    ts: &'a [Terminal<'a>],
) -> Result<(List<Param>, &'a [Terminal<'a>]), Refused>
    ensures { Reads result (spec.params bound ts.now) }
{
    match ts {
        [] => Err(Refused::Fault(0)),
        [
            Terminal {
                symbol: Symbol::Close,
                ..
            },
            rest @ ..,
        ] => Ok((List::new(Vec::new(alloc)), rest)),
        [
            Terminal {
                symbol: Symbol::Keyword(Keyword::Void),
                ..
            },
            rest @ ..,
        ] => {
            let rest = read_close(rest)?;
            Ok((List::new(Vec::new(alloc)), rest))
        }
        _ => {
            let (params, rest) = read_list::<ParamItem>(alloc, bound, depth, ts)?;
            keep(params, read_close(rest))
        }
    }
}

/// The name of the parameter of a thread's function, where it has one, and the closing parenthesis.
#[tactic(auto, unfolding(mm_reading::specs::Parsing::peek, mm_reading::specs::Parsing::skip, mm_reading::specs::Parsing::pure, mm_reading::specs::Parsing::fail))]
fn read_name_of_param<'a>(
    alloc: Global,
    ts: &'a [Terminal<'a>],
) -> Result<(List<Param>, &'a [Terminal<'a>]), Refused>
    ensures { Reads result (spec.name_of_param_at (head ts.now) ts.now) }
{
    match ts {
        [
            Terminal {
                symbol: Symbol::Close,
                ..
            },
            rest @ ..,
        ] => Ok((List::new(Vec::new(alloc)), rest)),
        [
            Terminal {
                symbol: Symbol::Name,
                at,
                spelling,
            },
            rest @ ..,
        ] => {
            let rest = read_close(rest)?;
            let name = Ident::copy_of(alloc, spelling.text())?;
            let mut params = Vec::new(alloc);
            params.push(Param {
                pointer: true,
                name: Word { at: *at, name },
            })?;
            Ok((List::new(params), rest))
        }
        _ => Err(Refused::Fault(ts.len())),
    }
}

/// What stands behind `void` in the parentheses of a thread's function.
#[tactic(auto, unfolding(mm_reading::specs::Parsing::peek, mm_reading::specs::Parsing::skip, mm_reading::specs::Parsing::pure, mm_reading::specs::Parsing::fail))]
fn read_behind_void<'a>(
    alloc: Global,
    ts: &'a [Terminal<'a>],
) -> Result<(List<Param>, &'a [Terminal<'a>]), Refused>
    ensures { Reads result (spec.behind_void_at (head ts.now) ts.now) }
{
    match ts {
        [
            Terminal {
                symbol: Symbol::Close,
                ..
            },
            rest @ ..,
        ] => Ok((List::new(Vec::new(alloc)), rest)),
        [
            Terminal {
                symbol: Symbol::Operator(Binary::Mul),
                ..
            },
            rest @ ..,
        ] => read_name_of_param(alloc, rest),
        _ => Err(Refused::Fault(ts.len())),
    }
}

/// The parameter of a thread's function behind the open parenthesis, and the closing one.
#[tactic(auto, unfolding(mm_grammar::specs::reading::ProgramReading::thread_params, mm_reading::specs::Parsing::peek, mm_reading::specs::Parsing::skip, mm_reading::specs::Parsing::pure, mm_reading::specs::Parsing::fail))]
fn read_thread_params<'a>(
    alloc: Global,
    ts: &'a [Terminal<'a>],
) -> Result<(List<Param>, &'a [Terminal<'a>]), Refused>
    ensures { Reads result (spec.thread_params ts.now) }
{
    match ts {
        [
            Terminal {
                symbol: Symbol::Close,
                ..
            },
            rest @ ..,
        ] => Ok((List::new(Vec::new(alloc)), rest)),
        [
            Terminal {
                symbol: Symbol::Keyword(Keyword::Void),
                ..
            },
            rest @ ..,
        ] => read_behind_void(alloc, rest),
        _ => Err(Refused::Fault(ts.len())),
    }
}

/// What stands behind `void *`.
#[tactic(auto, unfolding(mm_grammar::specs::reading::ProgramReading::thread_function))]
fn read_thread_function<'a>(
    alloc: Global,
    bound: usize,
    depth: u32,
    ts: &'a [Terminal<'a>],
) -> Result<(Item, &'a [Terminal<'a>]), Refused>
    ensures { Reads result (spec.thread_function bound ts.now) }
{
    let (name, rest) = read_name(alloc, ts)?;
    let (name, rest) = keep(name, read_open_mark(rest))?;
    let ((name, params), rest) = pair(name, read_thread_params(alloc, rest))?;
    read_function(alloc, bound, depth, Gives::Thread, name, params, rest)
}

/// Parameters and a block.
#[tactic(auto, unfolding(mm_grammar::specs::reading::ProgramReading::with_params))]
pub fn read_with_params<'a>(
    alloc: Global,
    bound: usize,
    depth: u32,
    gives: Gives,
    name: Word,
    ts: &'a [Terminal<'a>],
) -> Result<(Item, &'a [Terminal<'a>]), Refused>
    ensures { Reads result (spec.with_params bound gives name ts.now) }
{
    let ((name, params), rest) = pair(name, read_params(alloc, bound, depth, ts))?;
    read_function(alloc, bound, depth, gives, name, params, rest)
}

/// What stands behind `void`.
#[tactic(auto, unfolding(mm_grammar::specs::reading::ProgramReading::void_item, mm_reading::specs::Parsing::peek, mm_reading::specs::Parsing::skip, mm_reading::specs::Parsing::fail))]
pub fn read_void_item<'a>(
    alloc: Global,
    bound: usize,
    depth: u32,
    ts: &'a [Terminal<'a>],
) -> Result<(Item, &'a [Terminal<'a>]), Refused>
    ensures { Reads result (spec.void_item bound ts.now) }
{
    match ts {
        [] => Err(Refused::Fault(0)),
        [
            Terminal {
                symbol: Symbol::Operator(Binary::Mul),
                ..
            },
            rest @ ..,
        ] => read_thread_function(alloc, bound, depth, rest),
        _ => {
            let (name, rest) = read_name(alloc, ts)?;
            let (name, rest) = keep(name, read_open_mark(rest))?;
            read_with_params(alloc, bound, depth, Gives::Nothing, name, rest)
        }
    }
}

/// What stands behind `int`, a name and an empty list of parameters.
#[tactic(auto, unfolding(mm_grammar::specs::reading::ProgramReading::no_params, mm_reading::specs::Parsing::peek, mm_reading::specs::Parsing::skip, mm_reading::specs::Parsing::pure, mm_reading::specs::Parsing::fail))]
fn read_no_params<'a>(
    alloc: Global,
    bound: usize,
    depth: u32,
    may_ask: bool,
    name: Word,
    ts: &'a [Terminal<'a>],
) -> Result<(Item, &'a [Terminal<'a>]), Refused>
    ensures { Reads result (spec.no_params bound may_ask name ts.now) }
{
    match ts {
        [] => Err(Refused::Fault(0)),
        [
            Terminal {
                symbol: Symbol::Semicolon,
                ..
            },
            rest @ ..,
        ] => {
            if may_ask {
                let Word { at, name } = name;
                Ok((Item::InputDecl(at, name), rest))
            } else {
                Err(Refused::Fault(ts.len()))
            }
        }
        _ => {
            let params = List::new(Vec::new(alloc));
            read_function(alloc, bound, depth, Gives::Int, name, params, ts)
        }
    }
}

/// What stands behind `int`, a name and `(`.
#[tactic(auto, unfolding(mm_grammar::specs::reading::ProgramReading::asked, mm_reading::specs::Parsing::peek, mm_reading::specs::Parsing::skip, mm_reading::specs::Parsing::fail))]
pub fn read_asked<'a>(
    alloc: Global,
    bound: usize,
    depth: u32,
    may_ask: bool,
    name: Word,
    ts: &'a [Terminal<'a>],
) -> Result<(Item, &'a [Terminal<'a>]), Refused>
    ensures { Reads result (spec.asked bound may_ask name ts.now) }
{
    match ts {
        [] => Err(Refused::Fault(0)),
        [
            Terminal {
                symbol: Symbol::Close,
                ..
            },
            rest @ ..,
        ] => read_no_params(alloc, bound, depth, may_ask, name, rest),
        [
            Terminal {
                symbol: Symbol::Keyword(Keyword::Void),
                ..
            },
            rest @ ..,
        ] => {
            let (name, rest) = keep(name, read_close(rest))?;
            read_no_params(alloc, bound, depth, may_ask, name, rest)
        }
        _ => {
            let (front, rest) = pair(name, read_list::<ParamItem>(alloc, bound, depth, ts))?;
            let ((name, params), rest) = keep(front, read_close(rest))?;
            read_function(alloc, bound, depth, Gives::Int, name, params, rest)
        }
    }
}

/// `void` where it stands there.
#[tactic(auto, unfolding(mm_grammar::specs::reading::ProgramReading::void_or_not, mm_reading::specs::Parsing::peek, mm_reading::specs::Parsing::skip, mm_reading::specs::Parsing::pure))]
fn read_void_or_not<'a>(ts: &'a [Terminal<'a>]) -> &'a [Terminal<'a>]
    ensures { spec.void_or_not ts.now ≡ Parsed tt result.now }
{
    match ts {
        [
            Terminal {
                symbol: Symbol::Keyword(Keyword::Void),
                ..
            },
            rest @ ..,
        ] => rest,
        _ => ts,
    }
}

/// What stands behind `extern`.
#[tactic(auto, unfolding(mm_grammar::specs::reading::ProgramReading::external, mm_reading::specs::Parsing::pure))]
pub fn read_external<'a>(
    alloc: Global,
    ts: &'a [Terminal<'a>],
) -> Result<(Item, &'a [Terminal<'a>]), Refused>
    ensures { Reads result (spec.external ts.now) }
{
    let rest = read_int_word(ts)?;
    let (name, rest) = read_name(alloc, rest)?;
    let (name, rest) = keep(name, read_open_mark(rest))?;
    let Word { at, name } = name;
    let rest = read_void_or_not(rest);
    let (item, rest) = keep(Item::InputDecl(at, name), read_close(rest))?;
    keep(item, read_semicolon(rest))
}
