//! What holds of the flattening of small programs.
ghost use Rattle.std.specs.Prelude.{◌≡◌};
ghost use Rattle.mm_goto.specs.Listing.{Listing};
ghost use Rattle.mm_tree.specs.declared.item.Tree.{Tree};
ghost use Rattle.mm_tree.specs.declared.side.Side.{Side};
ghost use Rattle.mm_flow.specs.Programs.{program_of};
ghost use Rattle.mm_small_code.specs.reading.Flattening.{IsFlat};

/// What the cases say of a small program's tree is what the equations of flattening say.
pub fn a_flattened_tree_is_by_the_equations()
    ensures { (side : Side) (tree : Tree) (p : Listing) → IsFlat side tree p → p ≡ program_of side tree }
{}
