//! Laws on whole runs.

ghost use Rattle.std.specs.Prelude.{◌≡◌, ◌↔◌, ℕ, ◌++◌, option_and_then, find, slice_get, List, [], Some};
ghost use Rattle.mm_goto.specs.declared.model.Model.TheVariants.{Pso};
ghost use Rattle.mm_goto.specs.Listing.{Listing, without_places};
ghost use Rattle.mm_sched.specs.declared.entry.Entry.{Entry};
ghost use Rattle.mm_sched.specs.declared.entry.Rules.{Rules};
ghost use Rattle.mm_sched.specs.declared.entry.Rules.TheVariants.{Sc};
ghost use Rattle.mm_sched.specs.Buffer.{is_to, part};
ghost use Rattle.mm_sched.specs.Failing.{FailsBy};
ghost use Rattle.mm_sched.specs.Runs.{run, Fails, Reaches, failing_thread, locals_of};
ghost use Rattle.mm_sched.specs.State.{State, Pending, initial, pending_of};

/// The oldest store to a cell is the first of those that count for it.
pub fn a_flush_takes_the_first_that_counts()
    ensures { (ps : List Pending) (c : ℕ) → find (is_to c) ps ≡ slice_get (part Pso ps c) 0 }
{}

/// A run of two parts is a run of the second from where the first ends.
pub fn runs_join()
    ensures { (r : Rules) (p : Listing) (s : State) (xs ys : List Entry) → run r p s (xs ++ ys) ≡ option_and_then (λ mid. run r p mid ys) (run r p s xs) }
{}

/// Under sequential consistency nothing is ever pending.
pub fn nothing_is_pending_under_sc()
    ensures { (p : Listing) (es : List Entry) (s : State) → run Sc p (initial p) es ≡ Some s → (t : ℕ) → pending_of s t ≡ [] }
{}

/// The places in the text do not matter to what a program does.
pub fn places_do_not_matter()
    ensures { (r : Rules) (p : Listing) (n : ℕ) → Reaches r (without_places p) n ↔ Reaches r p n }
{}

/// A schedule that fails has a failing thread: the last instruction that is executed is that thread's assertion of this
/// number, and its value was 0. The thread's locals at the end are those that the assertion had.
pub fn a_failing_schedule_ends_in_its_assertion()
    ensures thread { (r : Rules) (p : Listing) (n : ℕ) (es : List Entry) → Fails r p n es →
        (t : ℕ) × (failing_thread es ≡ Some t) × FailsBy r p n es t }
    ensures locals { (r : Rules) (p : Listing) (n : ℕ) (es : List Entry) (fails : Fails r p n es) (t : ℕ) (by : FailsBy r p n es t) →
        locals_of fails.last t ≡ by.frame.locals }
{}
