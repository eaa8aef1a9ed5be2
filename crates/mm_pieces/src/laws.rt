//! The laws of the helpers of a woven program under TSO: a call of each does what steps of the machine do.

ghost use Rattle.std.specs.Prelude.{◌≡◌, ℕ, ◌+◌, ◌<◌, ◌≤◌, ◌^◌, ℤ, List, [], ◌∷◌, length, slice_get, nat_lt, if◌then◌else◌, Some, None};
ghost use Rattle.mm_goto.specs.Value.{value_of};
ghost use Rattle.mm_sched.specs.State.{State, Pending, pending_of};
ghost use Rattle.mm_sched.specs.Buffer as buffer;
ghost use Rattle.mm_sched.specs.Event.{pushed, flushed, written};
ghost use Rattle.mm_words.specs.Words.{num, number, call};
ghost use Rattle.mm_helpers.specs.Helpers.{wm_put, wm_pop, wm_get, wm_empty, wm_set, wm_flush};
ghost use Rattle.mm_flow.specs.declared.names.Named.{Named};
ghost use Rattle.mm_flow.specs.declared.names.Seen.{Seen};
ghost use Rattle.mm_flow.specs.Statements.{Within, function_of};
ghost use Rattle.mm_meaning.specs.Acting.{act};
ghost use Rattle.mm_meaning.specs.Meaning.{View, Done, meaning};
ghost use Rattle.mm_pieces.specs.Calling.{Inlines, Sees, put_function, pop_function, get_function, empty_function, set_function, flush_function, known, flow_of, call_of};
ghost use Rattle.mm_pieces.specs.Mirroring.{Table, IsSmall, HasArrays, Homes, Mirrors, Agrees};
ghost use Rattle.mm_pieces.specs.Flushing.{Safe, Leaves, thread_rows, asked};

/// From arrays that stand for the pending stores, `wm_put` leads to arrays that stand for them with one more, where the thread's
/// row has room, and does not come to its end where it has none.
pub fn wm_put_makes_a_store_pending()
    ensures { (tb : Table) (count size : ℕ) (home : ℕ → ℕ) → Homes tb count size home → IsSmall tb →
        (fuel asserts mem : ℕ) (w : Within) (inner : ℕ → Within) → Inlines w inner → Sees tb count mem inner →
        function_of w.items w.parts.asserts wm_put ≡ Some (put_function tb.places asserts) →
        (names : List Named) (seen : Seen) (a : View) (s : State) (t c k : ℕ) (v : ℤ) → Mirrors tb count size home a s →
        t < tb.rows → k + 8 ≤ length a.locals →
        Agrees (Mirrors tb count size home)
        (meaning act (flow_of w (known seen names k) (call wm_put (num t ∷ num c ∷ number v ∷ []))) fuel a)
        (if nat_lt (length (pending_of s t)) tb.places then Some (pushed s t c v) else None) }
{}

/// Where a thread has a pending store, `wm_pop` leads to arrays and cells that stand for the state behind its flush. The loop
/// that moves the row up is given more turns than stores are left.
pub fn wm_pop_flushes_the_oldest_store()
    ensures { (tb : Table) (count size : ℕ) (home : ℕ → ℕ) → Homes tb count size home → IsSmall tb →
        (fuel asserts mem : ℕ) (w : Within) (inner : ℕ → Within) → Inlines w inner → Sees tb count mem inner → mem + count ≤ tb.lens →
        function_of w.items w.parts.asserts wm_pop ≡ Some (pop_function tb.places asserts) →
        (names : List Named) (seen : Seen) (a : View) (s : State) (t c k : ℕ) (v : ℤ) (rest : List Pending) → Mirrors tb count size home a s →
        t < tb.rows → k + 9 ≤ length a.locals →
        pending_of s t ≡ (c, v) ∷ rest → c < count → home c ≡ mem + c → c < length s.memory → length rest < fuel →
        Agrees (Mirrors tb count size home)
        (meaning act (flow_of w (known seen names k) (call wm_pop (num t ∷ []))) fuel a)
        (Some (flushed s t c v)) }
{}

/// `wm_get` gives what the thread reads of the cell, its own newest pending store or else memory, and leaves memory as it is. The
/// search is given more turns than stores are pending.
pub fn wm_get_gives_what_the_thread_reads()
    ensures { (tb : Table) (count size : ℕ) (home : ℕ → ℕ) → Homes tb count size home → IsSmall tb → count < 2 ^ 31 →
        (fuel asserts mem : ℕ) (w : Within) (inner : ℕ → Within) → Inlines w inner → Sees tb count mem inner →
        function_of w.items w.parts.asserts wm_get ≡ Some (get_function tb.places asserts) →
        (names : List Named) (a : View) (s : State) (t c k : ℕ) → Mirrors tb count size home a s →
        t < tb.rows → k + 8 ≤ length a.locals → c < count → home c ≡ mem + c →
        ((i : ℕ) (q : Pending) → slice_get (pending_of s t) i ≡ Some q → q.0 < count) → length (pending_of s t) < fuel →
        (b : View) × (meaning act (call_of w names k wm_get (num t ∷ num c ∷ [])).flow fuel a ≡ Done b) × (b.memory ≡ a.memory) ×
        (value_of (call_of w names k wm_get (num t ∷ num c ∷ [])).pure b.locals ≡ buffer.seen s t c) }
{}

/// `wm_empty` leaves the arrays as they are where nothing of the thread is pending, and does not come to its end where something is.
pub fn wm_empty_waits_for_the_last_flush()
    ensures { (tb : Table) (count size : ℕ) (home : ℕ → ℕ) → Homes tb count size home → IsSmall tb →
        (fuel asserts mem : ℕ) (w : Within) (inner : ℕ → Within) → Inlines w inner → Sees tb count mem inner →
        function_of w.items w.parts.asserts wm_empty ≡ Some (empty_function asserts) →
        (names : List Named) (seen : Seen) (a : View) (s : State) (t k : ℕ) → Mirrors tb count size home a s →
        t < tb.rows → k + 3 ≤ length a.locals →
        Agrees (Mirrors tb count size home)
        (meaning act (flow_of w (known seen names k) (call wm_empty (num t ∷ []))) fuel a)
        (if buffer.is_empty (pending_of s t) then Some s else None) }
{}

/// `wm_set` writes to the cell at once where nothing of the thread is pending, and does not come to its end where something is.
pub fn wm_set_writes_at_once()
    ensures { (tb : Table) (count size : ℕ) (home : ℕ → ℕ) → Homes tb count size home → IsSmall tb →
        (fuel asserts mem : ℕ) (w : Within) (inner : ℕ → Within) → Inlines w inner → Sees tb count mem inner →
        function_of w.items w.parts.asserts wm_set ≡ Some (set_function asserts) →
        (names : List Named) (seen : Seen) (a : View) (s : State) (t c k : ℕ) (v : ℤ) → Mirrors tb count size home a s →
        t < tb.rows → k + 5 ≤ length a.locals → c < count → home c ≡ mem + c → c < length s.memory →
        Agrees (Mirrors tb count size home)
        (meaning act (flow_of w (known seen names k) (call wm_set (num t ∷ num c ∷ number v ∷ []))) fuel a)
        (if buffer.is_empty (pending_of s t) then Some (written s c v) else None) }
{}

/// `wm_flush` does the flushes that the inputs ask for, and does not come to its end where they ask for one that there is not, or
/// end too early. Its loop is given as many turns as inputs are left, and that of `wm_pop` more than stores are pending in a row.
pub fn wm_flush_does_the_flushes_that_inputs_ask_for()
    ensures { (tb : Table) (count size : ℕ) (home : ℕ → ℕ) → Homes tb count size home → IsSmall tb →
        (fuel of_pop of_flush mem shorter : ℕ) (w : Within) (middle inner : ℕ → Within) → Inlines w middle → ((r : ℕ) → Inlines (middle r) inner) →
        ((r : ℕ) → HasArrays tb (middle r).parts.spots) → Sees tb count mem inner → mem + count ≤ tb.lens → shorter ≤ fuel →
        ((r : ℕ) → function_of (middle r).items (middle r).parts.asserts wm_pop ≡ Some (pop_function tb.places of_pop)) →
        function_of w.items w.parts.asserts wm_flush ≡ Some (flush_function tb.rows of_flush) →
        (names : List Named) (seen : Seen) (a : View) (s : State) (k : ℕ) → Mirrors tb count size home a s → Safe tb count home mem shorter s →
        k + 14 ≤ length a.locals → length a.inputs ≤ fuel →
        Agrees (Leaves (Mirrors tb count size home))
        (meaning act (flow_of w (known seen names k) (call wm_flush [])) fuel a)
        (asked (thread_rows tb.rows) s a.inputs) }
{}
