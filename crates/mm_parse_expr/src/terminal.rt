//! The tokens of a text as the grammar sees them.
ghost use Rattle.std.specs.Prelude.{◌≡◌, All, map, IfOk};
ghost use Rattle.mm_lexer.specs.Tokens.{IsSpan, bytes_of};
ghost use Rattle.mm_parse_expr.specs.Terminals as spec;

use crate::symbol::{Symbol, symbol_of};
use mm_goto::{At, NoMemory};
use mm_lexer::{Token, TokenKind};
use std::alloc::Global;
use std::marker::Model;

/// The bytes of a token, in the text. Of a text they are those between its quotes.
#[derive(Debug, Drop)]
pub struct Spelling<'a> {
    text: &'a str,
}

impl<'a> Model for Spelling<'a> {
    ghost use Rattle.std.specs.Prelude.{List, ℕ};

    ghost Value = { List ℕ };

    ghost view = { λ spelling. spelling.text.now };
}

impl<'a> Spelling<'a> {
    fn new(text: &'a str) -> Spelling<'a>
        ensures { result ≡ text.now }
    {
        Spelling { text }
    }

    /// The bytes as a text.
    pub fn text(&self) -> &'a str
        ensures { result.now ≡ self.now }
    {
        self.text
    }
}

/// A token as the grammar sees it.
#[derive(Debug, Drop)]
pub struct Terminal<'a> {
    pub symbol: Symbol,
    /// The place of its first character.
    pub at: At,
    pub spelling: Spelling<'a>,
}

/// The bytes of a token, and of a text what stands between its quotes.
fn spelling_of<'a>(text: &'a str, token: &Token) -> &'a str
    requires { IsSpan text.now token.now }
    ensures { result.now ≡ spec.spelling_of token.now.kind (bytes_of text.now token.now) }
{
    let start = token.start as usize;
    let end = token.end as usize;
    match token.kind {
        TokenKind::Text => &text[start + 1..end - 1],
        TokenKind::Name | TokenKind::Number(_) | TokenKind::Mark => &text[start..end],
    }
}

fn terminal_of<'a>(text: &'a str, token: &Token) -> Terminal<'a>
    requires { IsSpan text.now token.now }
    ensures { result ≡ spec.terminal_of text.now token.now }
{
    let bytes = &text[token.start as usize..token.end as usize];
    Terminal {
        symbol: symbol_of(token.kind, bytes.as_bytes()),
        at: token.at,
        spelling: Spelling::new(spelling_of(text, token)),
    }
}

/// The tokens of a text as the grammar sees them, in their order.
pub fn terminals<'a>(
    alloc: Global,
    text: &'a str,
    tokens: &[Token],
) -> Result<Vec<Terminal<'a>>, NoMemory>
    requires { All (IsSpan text.now) tokens.now }
    ensures { IfOk result (λ terminals. terminals.items ≡ map (spec.terminal_of text.now) tokens.now) }
{
    let mut terminals = Vec::new(alloc);
    for token in tokens {
        terminals.push(terminal_of(text, token))?;
    }
    Ok(terminals)
}
