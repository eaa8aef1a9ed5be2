//! What the woven program of main alone looks like.

ghost use Rattle.std.specs.Prelude.{◌≡◌, false, []};
ghost use Rattle.mm_goto.specs.declared.model.Model.{Model};
ghost use Rattle.mm_goto.specs.declared.shape.Head.{Head};
ghost use Rattle.mm_goto.specs.declared.shape.Shape.{Shape};
ghost use Rattle.mm_goto.specs.Bounds.{Bounding};
ghost use Rattle.mm_goto.specs.Listing.{Listing};
ghost use Rattle.mm_delay.specs.Plans.{IsPlanOf};
ghost use Rattle.mm_print.specs.Items.{printed_text};
ghost use Rattle.mm_print.specs.SmallListing.{IsSmallListing};
ghost use Rattle.mm_print.specs.SmallText.{small_text};
ghost use Rattle.mm_instr.specs.Woven.{has_buffers, has_moved_cells, woven};

/// Where no store is buffered and no cell moves, the woven program of a small program is printed with one line for each global, each
/// local and each instruction.
pub fn a_small_program_is_printed_line_by_line()
    ensures { (p : Listing) (shape : Shape) (m : Model) (bound : Bounding) → IsSmallListing p →
        has_buffers shape ≡ false →
        has_moved_cells shape ≡ false →
        printed_text (woven p shape) (record { model = m; bound = bound; notes = [] }) ≡ small_text p m bound }
{}

/// A small program has no delay cycle, so that its plan buffers no store, and its woven program is printed so.
pub fn a_small_program_needs_no_buffer()
    ensures unbuffered { (p : Listing) (m : Model) (bound : Bounding) (shape : Shape) (head : Head) → IsSmallListing p →
        IsPlanOf p m bound shape head → has_buffers shape ≡ false }
    ensures printed { (p : Listing) (m : Model) (bound : Bounding) (shape : Shape) (head : Head) → IsSmallListing p →
        IsPlanOf p m bound shape head → printed_text (woven p shape) head ≡ small_text p m bound }
{}
