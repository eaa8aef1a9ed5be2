//! The depth of a text: what is counted at each token, and where a count passes its limit.
ghost use Rattle.std.specs.Prelude.{◌≡◌, ◌≤◌, ◌<◌, ◌^◌};
ghost use Rattle.mm_grammar.specs.Nesting as spec;

use mm_goto::At;
use mm_parse_expr::{Keyword, Symbol, Terminal};
use mm_tree::Side;

/// What is counted at a token.
#[derive(Clone, Copy, Debug, PartialEq, Eq)]
pub struct Counts {
    /// The brackets that are open.
    pub brackets: u32,
    /// The tokens since the last `;`, `,`, `{` or `}`.
    pub tokens: u32,
    /// The words `else` and `for` since the last token that stands in no brackets.
    pub words: u32,
}

/// How much of each a text of a side may have.
fn limits(side: Side) -> Counts
    ensures limits { result ≡ spec.limits side }
    ensures brackets { result.brackets ≤ 2048 }
    ensures tokens { result.tokens ≤ 2048 }
    ensures words { result.words ≤ 2048 }
{
    match side {
        Side::Source => Counts {
            brackets: 200,
            tokens: 200,
            words: 200,
        },
        Side::Output => Counts {
            brackets: 512,
            tokens: 2048,
            words: 200,
        },
    }
}

fn brackets_after(n: u32, symbol: Symbol) -> u32
    requires { n ≤ 2048 }
    ensures { result ≡ spec.brackets_after n symbol }
{
    match symbol {
        Symbol::Open | Symbol::OpenBracket | Symbol::OpenBrace => n + 1,
        Symbol::Close | Symbol::CloseBracket | Symbol::CloseBrace => n.saturating_sub(1),
        _ => n,
    }
}

fn tokens_after(n: u32, symbol: Symbol) -> u32
    requires { n ≤ 2048 }
    ensures { result ≡ spec.tokens_after n symbol }
{
    match symbol {
        Symbol::Semicolon | Symbol::Comma | Symbol::OpenBrace | Symbol::CloseBrace => 0,
        _ => n + 1,
    }
}

fn words_within(n: u32, symbol: Symbol) -> u32
    requires { n ≤ 2048 }
    ensures { result ≡ spec.words_within n symbol }
{
    match symbol {
        Symbol::Keyword(Keyword::Else | Keyword::For) => n + 1,
        _ => n,
    }
}

fn words_after(brackets: u32, n: u32, symbol: Symbol) -> u32
    requires { n ≤ 2048 }
    ensures { result ≡ spec.words_after brackets n symbol }
{
    if brackets == 0 {
        return 0;
    }
    words_within(n, symbol)
}

/// What is counted at a token, by what is counted before it.
fn counted(counts: Counts, symbol: Symbol) -> Counts
    requires brackets { counts.brackets ≤ 2048 }
    requires tokens { counts.tokens ≤ 2048 }
    requires words { counts.words ≤ 2048 }
    ensures { result ≡ spec.counted counts symbol }
{
    let brackets = brackets_after(counts.brackets, symbol);
    Counts {
        brackets,
        tokens: tokens_after(counts.tokens, symbol),
        words: words_after(brackets, counts.words, symbol),
    }
}

fn passes(limits: Counts, counts: Counts) -> bool
    ensures { result ≡ spec.passes limits counts }
{
    counts.brackets > limits.brackets
        || counts.tokens > limits.tokens
        || counts.words > limits.words
}

/// The place of the first terminal at which a count passes the limit of the side.
pub fn deep_at<'a>(side: Side, terminals: &'a [Terminal<'a>]) -> Option<At>
    ensures { result ≡ spec.deep_at side terminals.now }
{
    let limits = limits(side);
    let mut counts = Counts {
        brackets: 0,
        tokens: 0,
        words: 0,
    };
    let mut rest = terminals;
    while let [terminal, others @ ..] = rest {
        counts = counted(counts, terminal.symbol);
        if passes(limits, counts) {
            return Some(terminal.at);
        }
        rest = others;
    }
    None
}
