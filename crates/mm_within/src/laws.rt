//! What holds of the size of woven programs.

ghost use Rattle.std.specs.Prelude.{◌≡◌, None};
ghost use Rattle.mm_goto.specs.Bounds.{IsBound};
ghost use Rattle.mm_goto.specs.Listing.{Listing};
ghost use Rattle.mm_goto.specs.Shapes.{Fits};
ghost use Rattle.mm_goto.specs.Sourcelike.{IsSourcelike};
ghost use Rattle.mm_goto.specs.declared.shape.Shape.{Shape};
ghost use Rattle.mm_graph.specs.Graphs.{IsSmall};
ghost use Rattle.mm_tree.specs.declared.item.Tree.{Tree};
ghost use Rattle.mm_tree.specs.declared.side.Side.TheVariants.{Output};
ghost use Rattle.mm_tree.specs.Places.{without_places};
ghost use Rattle.mm_flow.specs.Programs.{limit_passed};
ghost use Rattle.mm_instr.specs.Woven.{woven};
ghost use Rattle.mm_sourcelike.specs.Checks.{ChecksStandAlone};

/// A tree that is a woven one, but for the places, passes no limit of a woven program.
pub fn a_woven_tree_passes_no_limit()
    ensures { (p : Listing) (shape : Shape) (u : Tree) → IsSourcelike p → ChecksStandAlone p → IsSmall p → IsBound shape.bound → Fits p shape →
        without_places u ≡ without_places (woven p shape) → limit_passed Output u ≡ None }
{}
