ghost use Rattle.std.specs.Prelude.{◌≡◌, ◌≢◌, ◌≤◌, All, length, IfOk, IfErr};
ghost use Rattle.mm_lexer.specs.Tokens.{AreTokens, IsSpan, AreInOrder, IsFirstFault, HasToken};

use crate::piece::{Piece, piece_at};
use crate::place::{after, start};
use crate::token::{LexFault, Token};
use std::alloc::Global;

/// The tokens of a text, in their order. An error names the first place at which no token stands, or want of memory.
pub fn lex(alloc: Global, text: &str) -> Result<Vec<Token>, LexFault>
    requires { length text.now ≤ 16777216 }
    ensures tokens { IfOk result (λ tokens. AreTokens text.now tokens.items) }
    ensures spans { IfOk result (λ tokens. All (IsSpan text.now) tokens.items) }
    ensures in_order { IfOk result (λ tokens. AreInOrder 0 tokens.items) }
    ensures fault { IfErr result (λ fault. fault ≢ LexFault.NoMemory → IsFirstFault text.now fault) }
    ensures memory { IfErr result (λ fault. fault ≡ LexFault.NoMemory → HasToken text.now) }
{
    let mut tokens = Vec::new(alloc);
    let mut place = start();
    let mut rest = text;
    loop {
        match piece_at(place.is_head, rest) {
            Piece::End => return Ok(tokens),
            Piece::Gap(len) => (place, rest) = after(place, rest, len),
            Piece::Token(kind, len) => {
                let (end, behind) = after(place, rest, len);
                tokens.push(Token {
                    kind,
                    start: place.offset,
                    end: end.offset,
                    at: place.at,
                })?;
                (place, rest) = (end, behind);
            }
            Piece::Bad => return Err(LexFault::BadToken(place.at)),
            Piece::TooLarge => return Err(LexFault::NumberTooLarge(place.at)),
        }
    }
}
