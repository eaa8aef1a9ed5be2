//! What holds of the names and types of woven programs.

ghost use Rattle.std.specs.Prelude.{◌≡◌, ◌≤◌, length};
ghost use Rattle.mm_goto.specs.Bounds.{IsBound};
ghost use Rattle.mm_goto.specs.Listing.{Listing};
ghost use Rattle.mm_goto.specs.Shapes.{Fits};
ghost use Rattle.mm_goto.specs.Sourcelike.{IsSourcelike};
ghost use Rattle.mm_goto.specs.declared.shape.Shape.{Shape};
ghost use Rattle.mm_tree.specs.declared.item.Tree.{Tree};
ghost use Rattle.mm_tree.specs.declared.side.Side.TheVariants.{Output};
ghost use Rattle.mm_tree.specs.Places.{without_places};
ghost use Rattle.mm_names.specs.Programs.{IsAccepted};
ghost use Rattle.mm_instr.specs.Woven.{woven};

/// A tree that is a woven one, but for the places, has names and types that make sense.
pub fn a_woven_tree_makes_sense()
    ensures { (p : Listing) (shape : Shape) (u : Tree) → IsSourcelike p → length p.cells ≤ 256 → IsBound shape.bound → Fits p shape →
        without_places u ≡ without_places (woven p shape) → IsAccepted Output u }
{}
