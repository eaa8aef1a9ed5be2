//! The laws of the helpers of a woven program under PSO: a call of each does what steps of the machine do.

ghost use Rattle.std.specs.Prelude.{◌≡◌, ℕ, ◌+◌, ◌<◌, ◌≤◌, ℤ, List, [], ◌∷◌, length, slice_get, nat_lt, if◌then◌else◌, Some, None};
ghost use Rattle.mm_goto.specs.Value.{value_of};
ghost use Rattle.mm_sched.specs.State.{State, Pending, pending_of};
ghost use Rattle.mm_sched.specs.Buffer as buffer;
ghost use Rattle.mm_sched.specs.Event.{pushed, flushed, written};
ghost use Rattle.mm_words.specs.Words.{num, number, call};
ghost use Rattle.mm_helpers.specs.Helpers.{wm_put, wm_pop, wm_get, wm_empty, wm_set, wm_flush};
ghost use Rattle.mm_flow.specs.declared.names.Named.{Named};
ghost use Rattle.mm_flow.specs.declared.names.Seen.{Seen};
ghost use Rattle.mm_flow.specs.Statements.{Within, function_of};
ghost use Rattle.mm_meaning.specs.Acting.{act};
ghost use Rattle.mm_meaning.specs.Meaning.{View, Done, meaning};
ghost use Rattle.mm_pieces.specs.Calling.{Inlines, flush_function, known, flow_of, call_of};
ghost use Rattle.mm_pieces.specs.Mirroring.{Agrees};
ghost use Rattle.mm_pieces.specs.Flushing.{Leaves, asked};
ghost use Rattle.mm_pieces.specs.Parts.{PartTable, AreFew, SeesParts, PartHomes, MirrorsParts, SafeParts, rows_of, row_of, parts_of, cell_rows, pso_put_function, pso_pop_function, pso_get_function, pso_empty_function, pso_set_function};

/// `wm_put` leads to arrays that stand for the pending stores with one more, where the row of the thread and the cell has
/// room, and does not come to its end where it has none.
pub fn wm_put_makes_a_store_pending_in_a_row_of_a_cell()
    ensures { (tb : PartTable) (size : ℕ) (home : ℕ → ℕ) → PartHomes tb size home → AreFew tb →
        (fuel asserts mem : ℕ) (w : Within) (inner : ℕ → Within) → Inlines w inner → SeesParts tb mem inner →
        function_of w.items w.parts.asserts wm_put ≡ Some (pso_put_function tb asserts) →
        (names : List Named) (seen : Seen) (a : View) (s : State) (t c k : ℕ) (v : ℤ) → MirrorsParts tb size home a s →
        t < tb.threads → c < tb.cells → k + 8 ≤ length a.locals →
        Agrees (MirrorsParts tb size home)
        (meaning act (flow_of w (known seen names k) (call wm_put (num t ∷ num c ∷ number v ∷ []))) fuel a)
        (if nat_lt (length (parts_of s t c)) tb.places then Some (pushed s t c v) else None) }
{}

/// Where a thread has a pending store to the cell, `wm_pop` of their row leads to arrays and cells that stand for the
/// state behind the flush of the oldest. The loop that moves the row up is given more turns than stores are left.
pub fn wm_pop_flushes_the_oldest_store_to_a_cell()
    ensures { (tb : PartTable) (size : ℕ) (home : ℕ → ℕ) → PartHomes tb size home → AreFew tb →
        (fuel asserts mem : ℕ) (w : Within) (inner : ℕ → Within) → Inlines w inner → SeesParts tb mem inner → mem + tb.cells ≤ tb.lens →
        function_of w.items w.parts.asserts wm_pop ≡ Some (pso_pop_function tb asserts) →
        (names : List Named) (seen : Seen) (a : View) (s : State) (t c k : ℕ) (v : ℤ) (rest : List Pending) → MirrorsParts tb size home a s →
        t < tb.threads → c < tb.cells → k + 7 ≤ length a.locals → parts_of s t c ≡ (c, v) ∷ rest → home c ≡ mem + c → c < length s.memory → length rest < fuel →
        Agrees (MirrorsParts tb size home)
        (meaning act (flow_of w (known seen names k) (call wm_pop (num (row_of tb t c) ∷ []))) fuel a)
        (Some (flushed s t c v)) }
{}

/// `wm_get` gives what the thread reads of the cell, its own newest pending store or else memory, and leaves memory as it
/// is.
pub fn wm_get_gives_what_the_thread_reads_of_a_cell()
    ensures { (tb : PartTable) (size : ℕ) (home : ℕ → ℕ) → PartHomes tb size home → AreFew tb →
        (fuel asserts mem : ℕ) (w : Within) (inner : ℕ → Within) → Inlines w inner → SeesParts tb mem inner →
        function_of w.items w.parts.asserts wm_get ≡ Some (pso_get_function tb asserts) →
        (names : List Named) (a : View) (s : State) (t c k : ℕ) → MirrorsParts tb size home a s →
        t < tb.threads → c < tb.cells → k + 8 ≤ length a.locals → home c ≡ mem + c →
        (b : View) × (meaning act (call_of w names k wm_get (num t ∷ num c ∷ [])).flow fuel a ≡ Done b) × (b.memory ≡ a.memory) ×
        (value_of (call_of w names k wm_get (num t ∷ num c ∷ [])).pure b.locals ≡ buffer.seen s t c) }
{}

/// `wm_set` writes to the cell at once where no store of the thread to the cell is pending, and does not come to its end
/// where one is.
pub fn wm_set_writes_at_once_where_no_store_to_the_cell_is_pending()
    ensures { (tb : PartTable) (size : ℕ) (home : ℕ → ℕ) → PartHomes tb size home → AreFew tb →
        (fuel asserts mem : ℕ) (w : Within) (inner : ℕ → Within) → Inlines w inner → SeesParts tb mem inner →
        function_of w.items w.parts.asserts wm_set ≡ Some (pso_set_function tb asserts) →
        (names : List Named) (seen : Seen) (a : View) (s : State) (t c k : ℕ) (v : ℤ) → MirrorsParts tb size home a s →
        t < tb.threads → c < tb.cells → k + 5 ≤ length a.locals → home c ≡ mem + c → c < length s.memory →
        Agrees (MirrorsParts tb size home)
        (meaning act (flow_of w (known seen names k) (call wm_set (num t ∷ num c ∷ number v ∷ []))) fuel a)
        (if buffer.is_empty (parts_of s t c) then Some (written s c v) else None) }
{}

/// `wm_empty` leaves the arrays as they are where nothing of the thread is pending, and does not come to its end where
/// something is. Its loop is given more turns than there are cells.
pub fn wm_empty_waits_for_the_last_flush_of_each_row()
    ensures { (tb : PartTable) (size : ℕ) (home : ℕ → ℕ) → PartHomes tb size home → AreFew tb →
        (fuel asserts mem : ℕ) (w : Within) (inner : ℕ → Within) → Inlines w inner → SeesParts tb mem inner → tb.cells < fuel →
        function_of w.items w.parts.asserts wm_empty ≡ Some (pso_empty_function tb asserts) →
        (names : List Named) (seen : Seen) (a : View) (s : State) (t k : ℕ) → MirrorsParts tb size home a s →
        t < tb.threads → k + 4 ≤ length a.locals → ((i : ℕ) (q : Pending) → slice_get (pending_of s t) i ≡ Some q → q.0 < tb.cells) →
        Agrees (MirrorsParts tb size home)
        (meaning act (flow_of w (known seen names k) (call wm_empty (num t ∷ []))) fuel a)
        (if buffer.is_empty (pending_of s t) then Some s else None) }
{}

/// `wm_flush` does the flushes that the inputs ask for by the numbers of rows, and does not come to its end where they ask
/// for one that there is not, or end too early.
pub fn wm_flush_does_the_flushes_to_cells_that_inputs_ask_for()
    ensures { (tb : PartTable) (size : ℕ) (home : ℕ → ℕ) → PartHomes tb size home → AreFew tb →
        (fuel of_pop of_flush mem shorter : ℕ) (w : Within) (middle inner : ℕ → Within) → Inlines w middle → ((r : ℕ) → Inlines (middle r) inner) →
        SeesParts tb mem middle → SeesParts tb mem inner → mem + tb.cells ≤ tb.lens → shorter ≤ fuel →
        ((r : ℕ) → function_of (middle r).items (middle r).parts.asserts wm_pop ≡ Some (pso_pop_function tb of_pop)) →
        function_of w.items w.parts.asserts wm_flush ≡ Some (flush_function (rows_of tb) of_flush) →
        (names : List Named) (seen : Seen) (a : View) (s : State) (k : ℕ) → MirrorsParts tb size home a s → SafeParts tb home mem shorter s →
        k + 12 ≤ length a.locals → length a.inputs ≤ fuel →
        Agrees (Leaves (MirrorsParts tb size home))
        (meaning act (flow_of w (known seen names k) (call wm_flush [])) fuel a)
        (asked (cell_rows tb) s a.inputs) }
{}
