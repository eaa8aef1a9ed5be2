//! What the printed text means.
ghost use Rattle.std.specs.Prelude.{◌≡◌, ℕ, List, map, None};
ghost use Rattle.mm_goto.specs.declared.model.Model.{Model as ModelOf};
ghost use Rattle.mm_goto.specs.Bounds.{Bounding};
ghost use Rattle.mm_goto.specs.Listing.{Listing, without_places};
ghost use Rattle.mm_goto.specs.declared.shape.Head.{Head};
ghost use Rattle.mm_lexer.specs.declared.token.Token.{Token};
ghost use Rattle.mm_lexer.specs.Tokens.{AreTokens};
ghost use Rattle.mm_tree.specs.declared.item.Tree.{Tree};
ghost use Rattle.mm_tree.specs.declared.side.Side.{Side};
ghost use Rattle.mm_tree.specs.declared.side.Side.TheVariants.{Output};
ghost use Rattle.mm_tree.specs.Places.{without_places as tree_without_places};
ghost use Rattle.mm_parse_expr.specs.Terminals.{terminal_of};
ghost use Rattle.mm_grammar.specs.Meaning.{IsTreeOf};
ghost use Rattle.mm_grammar.specs.Nesting.{deep_at};
ghost use Rattle.mm_print.specs.Items.{printed_text};
ghost use Rattle.mm_print.specs.Printable.{IsPrintableTree};
ghost use Rattle.mm_print.specs.Room.{IsRoomyTree};
ghost use Rattle.mm_print.specs.Meaning.{IsProgramOf};
ghost use Rattle.mm_print.specs.SmallListing.{IsSmallListing};
ghost use Rattle.mm_print.specs.SmallText.{small_text};
ghost use Rattle.mm_print.specs.Woven.{woven};

/// The printed text of a printable tree is cut into tokens. Where no limit of a side refuses it, it is read as that tree but
/// for the places, and it is read as no other.
pub fn a_printed_text_is_read_again()
    ensures cut { (t : Tree) (h : Head) → IsPrintableTree t → (ts : List Token) × AreTokens (printed_text t h) ts }
    ensures read { (side : Side) (t : Tree) (h : Head) (ts : List Token) → IsPrintableTree t → AreTokens (printed_text t h) ts → deep_at side (map (terminal_of (printed_text t h)) ts) ≡ None → (u : Tree) × IsTreeOf side (printed_text t h) u × (tree_without_places u ≡ tree_without_places t) }
    ensures alone { (side : Side) (t u : Tree) (h : Head) → IsPrintableTree t → IsTreeOf side (printed_text t h) u → tree_without_places u ≡ tree_without_places t }
{}

/// The printed text of a tree that has room within the limits of a woven program is read as that tree.
pub fn a_roomy_text_is_accepted()
    ensures { (t : Tree) (h : Head) → IsRoomyTree t → (u : Tree) × IsTreeOf Output (printed_text t h) u × (tree_without_places u ≡ tree_without_places t) }
{}

/// The printed text of a small program is accepted, and its goto program is the woven program.
pub fn printed_text_is_the_woven_program()
    ensures accepted { (p : Listing) (m : ModelOf) (bound : Bounding) → IsSmallListing p → (q : Listing) × IsProgramOf Output (small_text p m bound) q }
    ensures woven { (p q : Listing) (m : ModelOf) (bound : Bounding) → IsSmallListing p → IsProgramOf Output (small_text p m bound) q → without_places q ≡ woven p }
{}

/// A text means one goto program at most.
pub fn a_text_means_one_program()
    ensures { (side : Side) (text : List ℕ) (p q : Listing) → IsProgramOf side text p → IsProgramOf side text q → p ≡ q }
{}
