//! Where the tokens are no expression.
ghost use Rattle.std.specs.Prelude.{◌≡◌, ◌≢◌, ◌≤◌, length};
ghost use Rattle.mm_parse_expr.specs.Faults as spec;

use crate::symbol::Symbol;
use crate::terminal::Terminal;
use mm_goto::{At, Ident, NoMemory};
use mm_lexer::end_of;
use std::alloc::Global;

/// Why tokens were not parsed.
#[derive(Debug, Drop)]
pub enum ParseFault {
    /// Too much is open at the token.
    TooDeep(At),
    /// A word or a mark of C that the profile has not stands where the tokens are no more what they should be.
    OutsideProfile(Ident, At),
    /// Another token stands there, or the text ends.
    BadSyntax(At),
    NoMemory,
}

impl From<NoMemory> for ParseFault {
    ghost use Rattle.mm_parse_expr.specs.declared.fault.ParseFault.TheVariants.{NoMemory as MemoryFault};

    ghost from_gives = { λ _ e. e ≡ MemoryFault };

    fn from(_: NoMemory) -> ParseFault {
        ParseFault::NoMemory
    }
}

/// The fault at the first of these terminals, or at the end of the text.
pub fn fault_at<'a>(alloc: Global, text: &str, rest: &'a [Terminal<'a>]) -> ParseFault
    requires { length text.now ≤ 16777216 }
    ensures { result ≢ ParseFault.NoMemory → result ≡ spec.fault_at text.now rest.now }
{
    match rest {
        [] => ParseFault::BadSyntax(end_of(text)),
        [
            Terminal {
                symbol: Symbol::Outside,
                at,
                spelling,
            },
            ..
        ] => {
            match Ident::copy_of(alloc, spelling.text()) {
                Ok(word) => ParseFault::OutsideProfile(word, *at),
                Err(NoMemory) => ParseFault::NoMemory,
            }
        }
        [Terminal { at, .. }, ..] => ParseFault::BadSyntax(*at),
    }
}
