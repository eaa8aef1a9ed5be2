//! The items that are no globals of the source and no functions of its threads.
ghost use Rattle.std.specs.Prelude.{◌≡◌, ◌-◌, ◌++◌, ◌∷◌, [], map, length, IfOk, OnOk};
ghost use Rattle.std.specs.List.{range_with_len};
ghost use Rattle.mm_words.specs.Words.{mutex, thread_variable};
ghost use Rattle.mm_templates.specs.Names as names;

use crate::asked::next;
use mm_goto::{Ident, NoMemory};
use mm_templates::handle_name;
use mm_tree::Item;
use mm_words::{add, mutex_item, thread_variable_item};
use sqlite_items::Boxed;
use std::alloc::Global;

/// The mutexes.
pub fn put_mutexes(alloc: Global, mutexes: &[Ident], out: &mut Vec<Item>) -> Result<(), NoMemory>
    ensures { OnOk result (out.new.items ≡ out.old.items ++ map mutex mutexes.now) }
{
    let mut rest = mutexes;
    while let [name, behind @ ..] = rest {
        add(out, mutex_item(alloc, name.text())?)?;
        rest = behind;
    }
    Ok(())
}

fn handle(alloc: Global, u: u32) -> Result<Boxed<Item>, NoMemory>
    ensures { IfOk result (λ item. item ≡ thread_variable (names.handle_name u)) }
{
    let name = handle_name(alloc, u)?;
    thread_variable_item(alloc, name.text())
}

/// The variables that hold the threads from 1 to below `threads`.
pub fn put_handles(alloc: Global, threads: u32, out: &mut Vec<Item>) -> Result<(), NoMemory>
    ensures { OnOk result (out.new.items ≡ out.old.items ++ map (λ u. thread_variable (names.handle_name u)) (range_with_len 1 (threads - 1))) }
{
    for k in 0..threads.saturating_sub(1) {
        add(out, handle(alloc, next(k)?)?)?;
    }
    Ok(())
}
