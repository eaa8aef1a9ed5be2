//! Laws of names and types.

ghost use Rattle.std.specs.Prelude.{◌≡◌, ◌⊎◌};
ghost use Rattle.mm_tree.specs.declared.item.Tree.{Tree};
ghost use Rattle.mm_tree.specs.declared.side.Side.{Side};
ghost use Rattle.mm_names.specs.declared.refusal.NameFault.{NameFault};
ghost use Rattle.mm_names.specs.Programs.{IsAccepted, IsRefused};

/// Each program is accepted or refused, on each side.
pub fn each_program_is_accepted_or_refused()
    ensures { (side : Side) (tree : Tree) → IsAccepted side tree ⊎ ((fault : NameFault) × IsRefused side tree fault) }
{}

/// And never both.
#[tactic(auto, using(crate::proofs::Decided::never_both))]
pub fn no_program_is_accepted_and_refused()
    ensures { (side : Side) (tree : Tree) (fault : NameFault) → IsAccepted side tree → IsRefused side tree fault → ⊥ }
{}

/// A program is refused in one way alone.
#[tactic(auto, using(crate::proofs::Decided::in_one_way))]
pub fn each_program_is_refused_in_one_way()
    ensures { (side : Side) (tree : Tree) (one other : NameFault) → IsRefused side tree one → IsRefused side tree other → one ≡ other }
{}
