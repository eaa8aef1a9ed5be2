ghost use Rattle.std.specs.Prelude.{◌≡◌, OnOk};
ghost use Rattle.mm_scope.specs.Steps.{after, in_turn};
ghost use Rattle.mm_scope.specs.Declarations.{meaning_of_local, initialiser, declared_name, declared_local, declared_thread};

use crate::around::Around;
use crate::part::note_value;
use crate::table::Meaning;
use crate::value::kind_if_pointer;
use crate::walk::Walk;
use mm_goto::{At, Ident, NoMemory};
use mm_tree::{Item, Local, Word};

/// Declares a local name in the scope of what stands there.
#[tactic(auto, using(crate::proofs::Steps::in_steps))]
pub fn declare_name<'a>(
    walk: &mut Walk<'a>,
    around: Around,
    at: At,
    name: &'a Ident,
    meaning: Meaning,
) -> Result<(), NoMemory>
    ensures { OnOk result (walk.new ≡ after (declared_name around at name.now meaning) walk.old) }
{
    walk.reserve(around.side, at, name);
    walk.declare(around.from, at, name, meaning)
}

fn meaning_of_local(pointer: bool) -> Meaning
    ensures { result ≡ meaning_of_local pointer }
{
    if pointer {
        Meaning::Pointer
    } else {
        Meaning::Int
    }
}

#[tactic(auto, using(crate::proofs::Steps::in_steps))]
fn note_initialiser<'a>(
    walk: &mut Walk<'a>,
    items: &[Item],
    around: Around,
    local: &'a Local,
) -> Result<(), NoMemory>
    ensures { OnOk result (walk.new ≡ after (initialiser items.now around local.now local.now.value) walk.old) }
{
    if let Some(value) = &local.value {
        let len = walk.scope.len();
        walk.add(&local.name, Meaning::Unready)?;
        note_value(
            walk,
            items,
            around,
            Some(kind_if_pointer(local.pointer)),
            value.get(),
        )?;
        walk.leave(len);
    }
    Ok(())
}

// Whether the name is taken is asked first, as in its initialiser it is a name.
#[tactic(auto, using(crate::proofs::Declared::in_declarations))]
fn declare_local<'a>(
    walk: &mut Walk<'a>,
    items: &[Item],
    around: Around,
    local: &'a Local,
) -> Result<(), NoMemory>
    ensures { OnOk result (walk.new ≡ after (declared_local items.now around local.now) walk.old) }
{
    let taken = walk.scope.is_taken(around.from, &local.name);
    note_initialiser(walk, items, around, local)?;
    walk.reserve(around.side, local.at, &local.name);
    walk.declare_where(
        taken,
        local.at,
        &local.name,
        meaning_of_local(local.pointer),
    )
}

#[tactic(auto, using(crate::proofs::Steps::in_loops))]
pub fn declare_locals<'a>(
    walk: &mut Walk<'a>,
    items: &[Item],
    around: Around,
    locals: &'a [Local],
) -> Result<(), NoMemory>
    ensures { OnOk result (walk.new ≡ after (in_turn (declared_local items.now around) locals.now) walk.old) }
{
    for local in locals {
        declare_local(walk, items, around, local)?;
    }
    Ok(())
}

#[tactic(auto, unfolding(crate::specs::Declarations::declared_thread))]
fn declare_thread<'a>(walk: &mut Walk<'a>, around: Around, word: &'a Word) -> Result<(), NoMemory>
    ensures { OnOk result (walk.new ≡ after (declared_thread around word.now) walk.old) }
{
    declare_name(walk, around, word.at, &word.name, Meaning::Thread)
}

#[tactic(auto, using(crate::proofs::Steps::in_loops))]
pub fn declare_threads<'a>(
    walk: &mut Walk<'a>,
    around: Around,
    words: &'a [Word],
) -> Result<(), NoMemory>
    ensures { OnOk result (walk.new ≡ after (in_turn (declared_thread around) words.now) walk.old) }
{
    for word in words {
        declare_thread(walk, around, word)?;
    }
    Ok(())
}
