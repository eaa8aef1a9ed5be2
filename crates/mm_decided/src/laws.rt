//! What may be decided of every program, valid or not.

ghost use Rattle.std.specs.Prelude.{◌⊎◌, ◌↔◌, ℕ, List};
ghost use Rattle.std.specs.List.{Contains};
ghost use Rattle.std.specs.List.Sorted.{IsStrictlyIncreasing};
ghost use Rattle.mm_goto.specs.DelayCycles.{HasDelayCycle, IsCycleOf};
ghost use Rattle.mm_goto.specs.Listing.{Listing};
ghost use Rattle.mm_goto.specs.Sites.{Names};
ghost use Rattle.mm_goto.specs.declared.model.Model.{Model};
ghost use Rattle.mm_goto.specs.declared.spot.Spot.{Spot};

/// The cells that an access may be to can be listed.
pub fn the_cells_of_an_access_can_be_listed()
    ensures { (p : Listing) (s : Spot) → (cells : List ℕ) × IsStrictlyIncreasing cells × ((c : ℕ) → Contains cells c ↔ Names p s c) }
{}

/// A store has a first delay cycle, or it has none.
pub fn a_store_has_a_first_delay_cycle_or_none()
    ensures { (p : Listing) (m : Model) (s : ℕ) → ((walk : List ℕ) × IsCycleOf p m s walk) ⊎ (HasDelayCycle p m s → ⊥) }
{}
