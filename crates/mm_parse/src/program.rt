//! The tree of a text.
ghost use Rattle.std.specs.Prelude.{◌≡◌, ◌≢◌, ◌≤◌, ◌+◌, length, IfOk, IfErr};
ghost use Rattle.mm_lexer.specs.Tokens.{AreTokens};
ghost use Rattle.mm_parse.specs.Faults.{Parses, IsFault};
ghost use Rattle.mm_grammar.specs.reading.ProgramReading as spec;
ghost use Rattle.mm_parse.specs.reading.Whole.{GivesWhole, IsFaultOf};

use crate::reading::read_program;
use mm_grammar::deep_at;
use mm_lexer::Token;
use mm_parse_expr::{DEPTH, ParseFault, Terminal, fault_at, terminals};
use mm_reading::Refused;
use mm_tree::{Side, Tree};
use std::alloc::Global;

/// The tree of all these terminals.
fn program_run<'a>(alloc: Global, terminals: &'a [Terminal<'a>]) -> Result<Tree, Refused>
    ensures { GivesWhole result (spec.program (length terminals.now + 1) terminals.now) }
{
    let (tree, _) = read_program(alloc, terminals.len() + 1, DEPTH, terminals)?;
    Ok(tree)
}

/// The fault where nothing was read.
fn fault_of<'a>(
    alloc: Global,
    text: &str,
    terminals: &'a [Terminal<'a>],
    refused: Refused,
) -> ParseFault
    requires { length text.now ≤ 16777216 }
    ensures { result ≢ ParseFault.NoMemory → IsFaultOf text.now terminals.now refused result }
{
    match refused {
        Refused::Memory => ParseFault::NoMemory,
        Refused::Fault(left) => {
            let (_, rest) = terminals.split_at(terminals.len().saturating_sub(left));
            fault_at(alloc, text, rest)
        }
    }
}

/// The tree of a text that is cut into these tokens. Where too much is open for a text of this side, the fault is at the
/// first token at which it is. Else, where the tokens are no program, it is at the token behind the longest run of them
/// that begins one, or at the end of the text where there is none. Which names may stand where is not looked at.
pub fn parse(alloc: Global, text: &str, tokens: &[Token], side: Side) -> Result<Tree, ParseFault>
    requires text { length text.now ≤ 16777216 }
    requires tokens { AreTokens text.now tokens.now }
    ensures tree { IfOk result (λ tree. Parses side text.now tokens.now tree) }
    ensures fault { IfErr result (λ fault. fault ≢ ParseFault.NoMemory →
        IsFault side text.now tokens.now fault) }
{
    let terminals = terminals(alloc, text, tokens)?;
    let all = terminals.as_slice();
    if let Some(at) = deep_at(side, all) {
        return Err(ParseFault::TooDeep(at));
    }
    match program_run(alloc, all) {
        Ok(tree) => Ok(tree),
        Err(refused) => Err(fault_of(alloc, text, all, refused)),
    }
}
