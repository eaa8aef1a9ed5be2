//! Single tokens.
ghost use Rattle.std.specs.Prelude.{◌≡◌};
ghost use Rattle.mm_reading.specs.Gives.{Gives, GivesUnit};
ghost use Rattle.mm_reading.specs.Parsing.{Parsed};
ghost use Rattle.mm_grammar.specs.reading.ProgramReading as program;
ghost use Rattle.mm_grammar.specs.reading.StatementReading as spec;

use mm_goto::{Binary, Ident};
use mm_parse_expr::{Keyword, Symbol, Terminal};
use mm_reading::Refused;
use std::alloc::Global;

/// `;`.
#[tactic(auto, unfolding(mm_grammar::specs::reading::StatementReading::semicolon, mm_reading::specs::Parsing::token, mm_reading::specs::Parsing::peek, mm_reading::specs::Parsing::skip, mm_reading::specs::Parsing::pure, mm_reading::specs::Parsing::fail))]
pub fn read_semicolon<'a>(ts: &'a [Terminal<'a>]) -> Result<&'a [Terminal<'a>], Refused>
    ensures { GivesUnit result (spec.semicolon ts.now) }
{
    match ts {
        [
            Terminal {
                symbol: Symbol::Semicolon,
                ..
            },
            rest @ ..,
        ] => Ok(rest),
        _ => Err(Refused::Fault(ts.len())),
    }
}

/// `,`.
#[tactic(auto, unfolding(mm_grammar::specs::reading::StatementReading::comma, mm_reading::specs::Parsing::token, mm_reading::specs::Parsing::peek, mm_reading::specs::Parsing::skip, mm_reading::specs::Parsing::pure, mm_reading::specs::Parsing::fail))]
pub fn read_comma<'a>(ts: &'a [Terminal<'a>]) -> Result<&'a [Terminal<'a>], Refused>
    ensures { GivesUnit result (spec.comma ts.now) }
{
    match ts {
        [
            Terminal {
                symbol: Symbol::Comma,
                ..
            },
            rest @ ..,
        ] => Ok(rest),
        _ => Err(Refused::Fault(ts.len())),
    }
}

/// `(`.
#[tactic(auto, unfolding(mm_grammar::specs::reading::StatementReading::open_mark, mm_reading::specs::Parsing::token, mm_reading::specs::Parsing::peek, mm_reading::specs::Parsing::skip, mm_reading::specs::Parsing::pure, mm_reading::specs::Parsing::fail))]
pub fn read_open_mark<'a>(ts: &'a [Terminal<'a>]) -> Result<&'a [Terminal<'a>], Refused>
    ensures { GivesUnit result (spec.open_mark ts.now) }
{
    match ts {
        [
            Terminal {
                symbol: Symbol::Open,
                ..
            },
            rest @ ..,
        ] => Ok(rest),
        _ => Err(Refused::Fault(ts.len())),
    }
}

/// `&`.
#[tactic(auto, unfolding(mm_grammar::specs::reading::StatementReading::ampersand, mm_reading::specs::Parsing::token, mm_reading::specs::Parsing::peek, mm_reading::specs::Parsing::skip, mm_reading::specs::Parsing::pure, mm_reading::specs::Parsing::fail))]
pub fn read_ampersand<'a>(ts: &'a [Terminal<'a>]) -> Result<&'a [Terminal<'a>], Refused>
    ensures { GivesUnit result (spec.ampersand ts.now) }
{
    match ts {
        [
            Terminal {
                symbol: Symbol::Operator(Binary::And),
                ..
            },
            rest @ ..,
        ] => Ok(rest),
        _ => Err(Refused::Fault(ts.len())),
    }
}

/// `while`.
#[tactic(auto, unfolding(mm_grammar::specs::reading::StatementReading::while_word, mm_reading::specs::Parsing::token, mm_reading::specs::Parsing::peek, mm_reading::specs::Parsing::skip, mm_reading::specs::Parsing::pure, mm_reading::specs::Parsing::fail))]
pub fn read_while_word<'a>(ts: &'a [Terminal<'a>]) -> Result<&'a [Terminal<'a>], Refused>
    ensures { GivesUnit result (spec.while_word ts.now) }
{
    match ts {
        [
            Terminal {
                symbol: Symbol::Keyword(Keyword::While),
                ..
            },
            rest @ ..,
        ] => Ok(rest),
        _ => Err(Refused::Fault(ts.len())),
    }
}

/// `int`.
#[tactic(auto, unfolding(mm_grammar::specs::reading::StatementReading::int_word, mm_reading::specs::Parsing::token, mm_reading::specs::Parsing::peek, mm_reading::specs::Parsing::skip, mm_reading::specs::Parsing::pure, mm_reading::specs::Parsing::fail))]
pub fn read_int_word<'a>(ts: &'a [Terminal<'a>]) -> Result<&'a [Terminal<'a>], Refused>
    ensures { GivesUnit result (spec.int_word ts.now) }
{
    match ts {
        [
            Terminal {
                symbol: Symbol::Keyword(Keyword::Int),
                ..
            },
            rest @ ..,
        ] => Ok(rest),
        _ => Err(Refused::Fault(ts.len())),
    }
}

/// `NULL` or the number 0.
#[tactic(auto, unfolding(mm_grammar::specs::reading::StatementReading::null, mm_reading::specs::Parsing::token, mm_reading::specs::Parsing::peek, mm_reading::specs::Parsing::skip, mm_reading::specs::Parsing::pure, mm_reading::specs::Parsing::fail))]
pub fn read_null<'a>(ts: &'a [Terminal<'a>]) -> Result<&'a [Terminal<'a>], Refused>
    ensures { GivesUnit result (spec.null ts.now) }
{
    match ts {
        [
            Terminal {
                symbol: Symbol::Null | Symbol::Number(0),
                ..
            },
            rest @ ..,
        ] => Ok(rest),
        _ => Err(Refused::Fault(ts.len())),
    }
}

/// `{`.
#[tactic(auto, unfolding(mm_grammar::specs::reading::ProgramReading::open_brace, mm_reading::specs::Parsing::token, mm_reading::specs::Parsing::peek, mm_reading::specs::Parsing::skip, mm_reading::specs::Parsing::pure, mm_reading::specs::Parsing::fail))]
pub fn read_open_brace<'a>(ts: &'a [Terminal<'a>]) -> Result<&'a [Terminal<'a>], Refused>
    ensures { GivesUnit result (program.open_brace ts.now) }
{
    match ts {
        [
            Terminal {
                symbol: Symbol::OpenBrace,
                ..
            },
            rest @ ..,
        ] => Ok(rest),
        _ => Err(Refused::Fault(ts.len())),
    }
}

/// `}`.
#[tactic(auto, unfolding(mm_grammar::specs::reading::ProgramReading::close_brace, mm_reading::specs::Parsing::token, mm_reading::specs::Parsing::peek, mm_reading::specs::Parsing::skip, mm_reading::specs::Parsing::pure, mm_reading::specs::Parsing::fail))]
pub fn read_close_brace<'a>(ts: &'a [Terminal<'a>]) -> Result<&'a [Terminal<'a>], Refused>
    ensures { GivesUnit result (program.close_brace ts.now) }
{
    match ts {
        [
            Terminal {
                symbol: Symbol::CloseBrace,
                ..
            },
            rest @ ..,
        ] => Ok(rest),
        _ => Err(Refused::Fault(ts.len())),
    }
}

/// `PTHREAD_MUTEX_INITIALIZER`.
#[tactic(auto, unfolding(mm_grammar::specs::reading::ProgramReading::initializer, mm_reading::specs::Parsing::token, mm_reading::specs::Parsing::peek, mm_reading::specs::Parsing::skip, mm_reading::specs::Parsing::pure, mm_reading::specs::Parsing::fail))]
pub fn read_initializer<'a>(ts: &'a [Terminal<'a>]) -> Result<&'a [Terminal<'a>], Refused>
    ensures { GivesUnit result (program.initializer ts.now) }
{
    match ts {
        [
            Terminal {
                symbol: Symbol::Keyword(Keyword::MutexInitializer),
                ..
            },
            rest @ ..,
        ] => Ok(rest),
        _ => Err(Refused::Fault(ts.len())),
    }
}

/// A text between quotes.
#[tactic(auto, unfolding(mm_grammar::specs::reading::StatementReading::text, mm_reading::specs::Parsing::token, mm_reading::specs::Parsing::peek, mm_reading::specs::Parsing::skip, mm_reading::specs::Parsing::pure, mm_reading::specs::Parsing::fail))]
pub fn read_text<'a>(
    alloc: Global,
    ts: &'a [Terminal<'a>],
) -> Result<(Ident, &'a [Terminal<'a>]), Refused>
    ensures { Gives result (spec.text ts.now) }
{
    match ts {
        [
            Terminal {
                symbol: Symbol::Text,
                spelling,
                ..
            },
            rest @ ..,
        ] => Ok((Ident::copy_of(alloc, spelling.text())?, rest)),
        _ => Err(Refused::Fault(ts.len())),
    }
}

/// A `*` where one stands there, and whether one does.
#[tactic(auto, unfolding(mm_grammar::specs::reading::StatementReading::star, mm_reading::specs::Parsing::peek, mm_reading::specs::Parsing::skip, mm_reading::specs::Parsing::pure))]
pub fn read_star<'a>(ts: &'a [Terminal<'a>]) -> (bool, &'a [Terminal<'a>])
    ensures { spec.star ts.now ≡ Parsed result.0 result.1.now }
{
    match ts {
        [
            Terminal {
                symbol: Symbol::Operator(Binary::Mul),
                ..
            },
            rest @ ..,
        ] => (true, rest),
        _ => (false, ts),
    }
}
