ghost use Rattle.std.specs.Prelude.{◌≡◌, ◌+◌, ◌<◌, ◌^◌, IfOk};
ghost use Rattle.mm_goto.specs.Place.{start, past};

use std::alloc::{AllocError, AllocFailed, Global};
use std::marker::Model;

/// There was no memory for what was asked.
#[derive(Clone, Copy, Debug, PartialEq, Eq)]
pub struct NoMemory;

impl From<AllocError> for NoMemory {
    fn from(_: AllocError) -> NoMemory {
        NoMemory
    }
}

impl<T: Drop> From<AllocFailed<T>> for NoMemory {
    fn from(_: AllocFailed<T>) -> NoMemory {
        NoMemory
    }
}

/// A place in a text. Lines and columns count from 1, a line ends at a newline byte, and a column counts characters.
#[derive(Clone, Copy, Debug, PartialEq, Eq)]
pub struct At {
    pub line: u32,
    pub column: u32,
}

impl At {
    /// The first place of a text.
    pub fn start() -> At
        ensures { result ≡ start }
    {
        At { line: 1, column: 1 }
    }

    /// The place behind a character that stands here.
    pub fn past(self, c: char) -> At
        requires line { self.line + 1 < 2 ^ 32 }
        requires column { self.column + 1 < 2 ^ 32 }
        ensures { result ≡ past self c }
    {
        if c == '\n' {
            At {
                line: self.line + 1,
                column: 1,
            }
        } else {
            At {
                line: self.line,
                column: self.column + 1,
            }
        }
    }
}

/// A text, such as a name.
#[derive(Debug, Drop)]
pub struct Ident {
    text: String,
}

impl Model for Ident {
    ghost use Rattle.std.specs.Prelude.{List, ℕ, string_bytes};

    ghost Value = { List ℕ };

    ghost view = { λ ident. string_bytes ident.text };
}

impl Ident {
    /// A text of its own with the same bytes.
    pub fn copy_of(alloc: Global, text: &str) -> Result<Ident, NoMemory>
        ensures { IfOk result (λ ident. ident ≡ text.now) }
    {
        let text = String::from_str(alloc, text)?;
        Ok(Ident { text })
    }

    /// The text.
    pub fn text(&self) -> &str
        ensures { result.now ≡ self.now }
    {
        self.text.as_str()
    }
}
