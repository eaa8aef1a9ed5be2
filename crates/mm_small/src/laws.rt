//! What holds of small programs.

ghost use Rattle.std.specs.Prelude.{◌≡◌};
ghost use Rattle.mm_goto.specs.Sourcelike.{IsSourcelike};
ghost use Rattle.mm_goto.specs.Valid.{IsValid};
ghost use Rattle.mm_tree.specs.declared.item.Tree.{Tree};
ghost use Rattle.mm_tree.specs.declared.side.Side.TheVariants.{Source};
ghost use Rattle.mm_flow.specs.Programs.{program_of};
ghost use Rattle.mm_small.specs.declared.tree.Small.{Small};
ghost use Rattle.mm_small.specs.Flat.{listing_of};
ghost use Rattle.mm_small.specs.SmallProgram.{IsSmall};
ghost use Rattle.mm_small.specs.SmallTree.{IsWithinLimits};

/// The tree of a small program is flattened to the small program's goto program.
pub fn a_small_tree_is_flattened_so()
    ensures { (tree : Tree) (s : IsSmall tree) → program_of Source tree ≡ listing_of s.small }
{}

/// The goto program of a small program is valid, and as the analyses of a source may take it.
pub fn a_small_program_is_sourcelike()
    ensures valid { (s : Small) → IsWithinLimits s → IsValid (listing_of s) }
    ensures sourcelike { (s : Small) → IsWithinLimits s → IsSourcelike (listing_of s) }
{}
