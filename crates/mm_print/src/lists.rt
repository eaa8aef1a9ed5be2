ghost use Rattle.std.specs.Prelude.{◌≡◌, ◌++◌, OnOk, List, map, string_bytes};
ghost use Rattle.mm_print.specs.Pieces.{Piece, text, commas};

use mm_goto::NoMemory;
use mm_goto::text::put;
use std::alloc::Global;

/// A part of a tree that stands in lists.
pub trait Listed {
    /// The pieces of its printed form.
    ghost pieces: { Self → List Piece };

    /// Writes the part.
    fn put_part(&self, alloc: Global, out: &mut String) -> Result<(), NoMemory>
        ensures { OnOk result (string_bytes out.new ≡ string_bytes out.old ++ text (pieces self.now)) };
}

/// Writes the parts with a comma and a blank between them.
#[tactic(auto, using(crate::proofs::Texts::commas_more))]
pub fn put_listed<T: Listed>(alloc: Global, out: &mut String, parts: &[T]) -> Result<(), NoMemory>
    ensures { OnOk result (string_bytes out.new ≡ string_bytes out.old ++ text (commas (map T.pieces parts.now))) }
{
    let mut rest = parts;
    while let [part, behind @ ..] = rest {
        part.put_part(alloc, out)?;
        if !behind.is_empty() {
            put(out, ", ")?;
        }
        rest = behind;
    }
    Ok(())
}
