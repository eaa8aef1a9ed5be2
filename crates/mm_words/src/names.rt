ghost use Rattle.std.specs.Prelude.{◌≡◌, IfOk};
ghost use Rattle.mm_words.specs.Words as words;

use mm_goto::{At, Ident, NoMemory};
use mm_tree::Word;
use std::alloc::Global;

/// A text with a number behind it.
pub fn numbered(alloc: Global, text: &str, n: u32) -> Result<Ident, NoMemory>
    ensures { IfOk result (λ name. name ≡ words.numbered text.now n) }
{
    let name = format!(in alloc; "{text}{n}")?;
    Ident::copy_of(alloc, &name)
}

/// The name at 1:1.
pub fn word(name: Ident) -> Word
    ensures { result ≡ words.word name }
{
    Word {
        at: At::start(),
        name,
    }
}
