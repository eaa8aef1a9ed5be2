//! Whether a program makes sense.
ghost use Rattle.std.specs.Prelude.{◌≡◌, ◌≢◌, IfOk, IfErr};
ghost use Rattle.std.specs.List.{list_any};
ghost use Rattle.mm_scope.specs.Notes.{no_notes, all_noted};
ghost use Rattle.mm_names.specs.Least.{IsLeastOf, lesser_of_both};
ghost use Rattle.mm_names.specs.Programs.{has_main, notes_of, IsFault, IsAccepted, IsRefused};
ghost use Rattle.mm_names.specs.Results.{checked_of, declared_of};

use crate::calls::least_recursion;
use crate::checked::{Checked, Declared, declared_of};
use crate::item::{is_main, read_program};
use crate::refusal::{NameFault, refusal_of};
use crate::thread::least_misuse;
use mm_goto::{At, NoMemory};
use mm_scope::{Fault, Notes, lesser};
use mm_tree::{Side, Tree};
use std::alloc::Global;

fn has_main(tree: &Tree) -> bool
    ensures { result ≡ has_main tree.now }
{
    tree.items.items().iter().any(|item| is_main(item))
}

fn lesser_of_both(least: Option<Fault>, other: Option<Fault>) -> Option<Fault>
    ensures { result ≡ lesser_of_both least other }
{
    match other {
        None => least,
        Some(fault) => lesser(least, fault),
    }
}

/// The least fault of a program in which this is noted.
fn least_fault(
    alloc: Global,
    side: Side,
    tree: &Tree,
    notes: &Notes<'_>,
) -> Result<Option<Fault>, NoMemory>
    requires { notes.now ≡ all_noted no_notes (notes_of side tree.now) }
    ensures { IfOk result (λ least. IsLeastOf (IsFault side tree.now) least) }
{
    let misuse = least_misuse(notes.uses());
    let recursion = least_recursion(alloc, notes.calls())?;
    Ok(lesser_of_both(lesser_of_both(notes.least(), misuse), recursion))
}

// What a program declares, where it makes sense.
fn declarations(alloc: Global, tree: &Tree, side: Side) -> Result<Declared, NameFault>
    ensures accepted { IfOk result (λ declared. IsAccepted side tree.now) }
    ensures declared { IfOk result (λ declared. declared ≡ declared_of side tree.now) }
    ensures refused { IfErr result (λ fault. fault ≢ NameFault.NoMemory → IsRefused side tree.now fault) }
{
    if !has_main(tree) {
        return Err(NameFault::NoMain(At::start()));
    }
    let notes = read_program(alloc, side, tree)?;
    match least_fault(alloc, side, tree, &notes)? {
        Some(fault) => Err(refusal_of(fault)),
        None => Ok(declared_of(alloc, side, tree, &notes)?),
    }
}

/// A program with what it declares, where it makes sense. Else it is refused: at 1:1 where it has no main, else at the
/// least place at which a rule of names and types is broken, for the first of the rules that are broken there.
pub fn check(alloc: Global, tree: &Tree, side: Side) -> Result<Checked, NameFault>
    ensures accepted { IfOk result (λ checked. IsAccepted side tree.now) }
    ensures checked { IfOk result (λ checked. checked ≡ checked_of side tree.now) }
    ensures refused { IfErr result (λ fault. fault ≢ NameFault.NoMemory → IsRefused side tree.now fault) }
{
    let declared = declarations(alloc, tree, side)?;
    let tree = tree.copy(alloc)?;
    Ok(declared.in_program(side, tree))
}

/// The same as `check` for a tree that is given away, and so not copied.
pub fn check_owned(alloc: Global, tree: Tree, side: Side) -> Result<Checked, NameFault>
    ensures accepted { IfOk result (λ checked. IsAccepted side tree) }
    ensures checked { IfOk result (λ checked. checked ≡ checked_of side tree) }
    ensures refused { IfErr result (λ fault. fault ≢ NameFault.NoMemory → IsRefused side tree fault) }
{
    let declared = declarations(alloc, &tree, side)?;
    Ok(declared.in_program(side, tree))
}
