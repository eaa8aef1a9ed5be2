//! What holds of plans of buffers.

ghost use Rattle.std.specs.Prelude.{◌≡◌};
ghost use Rattle.mm_goto.specs.Bounds.{Bounding};
ghost use Rattle.mm_goto.specs.Listing.{Listing};
ghost use Rattle.mm_goto.specs.Valid.{IsValid};
ghost use Rattle.mm_goto.specs.declared.model.Model.{Model};
ghost use Rattle.mm_goto.specs.declared.shape.Head.{Head};
ghost use Rattle.mm_goto.specs.declared.shape.Shape.{Shape};
ghost use Rattle.mm_delay.specs.Plans.{IsPlanOf};

/// A valid program has a plan for each model and bound.
pub fn a_valid_program_has_a_plan()
    ensures { (p : Listing) (m : Model) (bound : Bounding) → IsValid p → (shape : Shape) × (head : Head) × IsPlanOf p m bound shape head }
{}

/// A program has one plan at most.
pub fn a_program_has_one_plan()
    ensures { (p : Listing) (m : Model) (bound : Bounding) (s t : Shape) (h k : Head) → IsPlanOf p m bound s h → IsPlanOf p m bound t k → (s ≡ t) × (h ≡ k) }
{}
