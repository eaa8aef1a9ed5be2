use mm_goto::{At, NoMemory};
use std::alloc::{AllocError, AllocFailed};

/// What a token is.
#[derive(Clone, Copy, Debug, PartialEq, Eq)]
pub enum TokenKind {
    /// A name, keywords among them.
    Name,
    /// A number, with its value.
    Number(i32),
    /// A text between quotes, which belong to the token.
    Text,
    /// A mark, such as `<<=` or `(`.
    Mark,
}

/// A token of a text. It is the bytes from `start` up to `end`, which is one behind its last.
#[derive(Clone, Copy, Debug, PartialEq, Eq)]
pub struct Token {
    pub kind: TokenKind,
    pub start: u32,
    pub end: u32,
    /// The place of its first character.
    pub at: At,
}

/// Why a text has no tokens. The place is the first at which no token stands.
#[derive(Clone, Copy, Debug, PartialEq, Eq)]
pub enum LexFault {
    BadToken(At),
    NumberTooLarge(At),
    NoMemory,
}

impl From<NoMemory> for LexFault {
    ghost use Rattle.std.specs.Prelude.{◌≡◌};
    ghost use Rattle.mm_lexer.specs.declared.token.LexFault.TheVariants.{NoMemory as MemoryFault};

    ghost from_gives = { λ _ e. e ≡ MemoryFault };

    fn from(_: NoMemory) -> LexFault {
        LexFault::NoMemory
    }
}

impl From<AllocError> for LexFault {
    ghost use Rattle.std.specs.Prelude.{◌≡◌};
    ghost use Rattle.mm_lexer.specs.declared.token.LexFault.TheVariants.{NoMemory as MemoryFault};

    ghost from_gives = { λ _ e. e ≡ MemoryFault };

    fn from(_: AllocError) -> LexFault {
        LexFault::NoMemory
    }
}

impl<T: Drop> From<AllocFailed<T>> for LexFault {
    ghost use Rattle.std.specs.Prelude.{◌≡◌};
    ghost use Rattle.mm_lexer.specs.declared.token.LexFault.TheVariants.{NoMemory as MemoryFault};

    ghost from_gives = { λ _ e. e ≡ MemoryFault };

    fn from(_: AllocFailed<T>) -> LexFault {
        LexFault::NoMemory
    }
}
