//! What the machine with partial buffers has to do with the one that makes every store pending.

ghost use Rattle.std.specs.Prelude.{◌≡◌, ℕ, Bool, List, Some};
ghost use Rattle.mm_goto.specs.Bounds.{Bounding, IsBound};
ghost use Rattle.mm_goto.specs.declared.model.Model.{Model};
ghost use Rattle.mm_goto.specs.Listing.{Listing};
ghost use Rattle.mm_goto.specs.Valid.{IsValid};
ghost use Rattle.mm_sched.specs.declared.entry.Entry.{Entry};
ghost use Rattle.mm_sched.specs.declared.entry.Rules.TheVariants.{Buffered, Partial};
ghost use Rattle.mm_sched.specs.Runs.{run, Fails, FailAlike};
ghost use Rattle.mm_sched.specs.State.{State, initial};

/// A store outside the set and its flush at once are a store of the machine that makes every store pending. So to a run with partial
/// buffers there is one with store buffers that ends in the same state; and where it fails, they fail alike.
pub fn a_failing_run_with_partial_buffers_is_one_with_store_buffers()
    ensures runs { (m : Model) (bound : Bounding) (set : List (List Bool)) (p : Listing) (es : List Entry) (last : State) →
        IsValid p → IsBound bound → run (Partial m bound set) p (initial p) es ≡ Some last →
        (fs : List Entry) × (run (Buffered m bound) p (initial p) fs ≡ Some last) }
    ensures alike { (m : Model) (bound : Bounding) (set : List (List Bool)) (p : Listing) (n : ℕ) (es : List Entry) →
        IsValid p → IsBound bound → Fails (Partial m bound set) p n es →
        (fs : List Entry) × FailAlike (Partial m bound set) (Buffered m bound) p p n es fs }
{}
