//! A law on programs of one thread.

ghost use Rattle.std.specs.Prelude.{◌≡◌, ◌≤◌, ◌↔◌, ℕ, length};
ghost use Rattle.mm_goto.specs.Bounds.{Bounding, bound_of};
ghost use Rattle.mm_goto.specs.declared.model.Model.{Model};
ghost use Rattle.mm_sched.specs.declared.entry.Rules.TheVariants.{Sc, Buffered};
ghost use Rattle.mm_goto.specs.Listing.{Listing};
ghost use Rattle.mm_sched.specs.Runs.{Reaches};
ghost use Rattle.mm_goto.specs.Valid.{IsValid};

/// Main alone sees its own stores: it fails the same assertions with store buffers as without.
pub fn main_alone_needs_no_buffer()
    ensures { (p : Listing) (m : Model) (bound : Bounding) (n : ℕ) → IsValid p → length p.threads ≡ 1 → 1 ≤ bound_of bound 0 → (Reaches Sc p n ↔ Reaches (Buffered m bound) p n) }
{}
