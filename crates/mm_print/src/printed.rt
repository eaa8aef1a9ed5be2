ghost use Rattle.std.specs.Prelude.{◌≡◌, OnOk, IfOk, string_bytes};
ghost use Rattle.mm_print.specs.Items.{printed_text};

use crate::head::put_head;
use crate::items::put_items;
use mm_goto::{Head, NoMemory};
use mm_tree::Tree;
use std::alloc::Global;

/// The printed text of a program, with what it says of itself in its first lines.
pub fn print(alloc: Global, tree: &Tree, head: &Head) -> Result<String, NoMemory>
    ensures { IfOk result (λ text. string_bytes text ≡ printed_text tree.now head.now) }
{
    let mut out = String::new(alloc);
    put_head(alloc, &mut out, head)?;
    put_items(alloc, &mut out, tree.items.items())?;
    Ok(out)
}
