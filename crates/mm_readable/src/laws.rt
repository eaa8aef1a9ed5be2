//! Woven trees have a text, and no limit of nesting refuses it.

ghost use Rattle.std.specs.Prelude.{◌≡◌, ◌≤◌, length};
ghost use Rattle.mm_goto.specs.Bounds.{IsBound};
ghost use Rattle.mm_goto.specs.Listing.{Listing};
ghost use Rattle.mm_goto.specs.Shapes.{Fits};
ghost use Rattle.mm_goto.specs.Sourcelike.{IsSourcelike};
ghost use Rattle.mm_goto.specs.declared.shape.Head.{Head};
ghost use Rattle.mm_goto.specs.declared.shape.Shape.{Shape};
ghost use Rattle.mm_tree.specs.declared.item.Tree.{Tree};
ghost use Rattle.mm_tree.specs.declared.side.Side.TheVariants.{Output};
ghost use Rattle.mm_tree.specs.Places.{without_places};
ghost use Rattle.mm_grammar.specs.Meaning.{IsTreeOf};
ghost use Rattle.mm_print.specs.Items.{printed_text};
ghost use Rattle.mm_print.specs.Room.{IsRoomyTree};
ghost use Rattle.mm_instr.specs.Woven.{woven};

use mm_print::laws::a_roomy_text_is_accepted;

/// A woven tree is printable, and has room within the limits of a woven program.
pub fn a_woven_tree_has_room()
    ensures { (p : Listing) (shape : Shape) → IsSourcelike p → length p.cells ≤ 256 → IsBound shape.bound → Fits p shape → IsRoomyTree (woven p shape) }
{}

/// The printed text of a woven tree is read as it, but for the places.
pub fn a_woven_text_is_read_as_its_tree()
    ensures { (p : Listing) (shape : Shape) (head : Head) → IsSourcelike p → length p.cells ≤ 256 → IsBound shape.bound → Fits p shape →
        (u : Tree) × IsTreeOf Output (printed_text (woven p shape) head) u × (without_places u ≡ without_places (woven p shape)) }
{
    a_woven_tree_has_room();
    a_roomy_text_is_accepted();
}
