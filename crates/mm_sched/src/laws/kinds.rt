//! What each kind of instruction does where its thread is at it and may step, and where it waits instead; and what a flush
//! does. Each law holds of every machine: of sequential consistency, and with whole and partial buffers for TSO and PSO.

ghost use Rattle.std.specs.Prelude.{◌≡◌, ◌≢◌, ℕ, ℤ, pos, true, false, List, [], ◌∷◌, length, find, slice_get, slice_set, Some, None};
ghost use Rattle.std.specs.Int.{w32, int_wrapping_add};
ghost use Rattle.mm_goto.specs.declared.model.Model.TheVariants.{Tso, Pso};
ghost use Rattle.mm_goto.specs.declared.program.Instr.{Instr};
ghost use Rattle.mm_goto.specs.declared.program.Instr.TheVariants.{Set, Load, Store, Input, Jump, Branch, Assert, Assume, Fence, Lock, Unlock, Add, Cas, Start, Join, AtomBegin, AtomEnd, End};
ghost use Rattle.mm_goto.specs.declared.program.Target.{Target};
ghost use Rattle.mm_goto.specs.declared.pure.Pure.{Pure};
ghost use Rattle.mm_goto.specs.Listing.{Listing};
ghost use Rattle.mm_goto.specs.Value.{value_of, is_zero};
ghost use Rattle.mm_sched.specs.declared.entry.Entry.TheVariants.{In, Flush, FlushCell};
ghost use Rattle.mm_sched.specs.declared.entry.How.TheVariants.{AtOnce, Delayed, NotEnabled};
ghost use Rattle.mm_sched.specs.declared.entry.Rules.{Rules};
ghost use Rattle.mm_sched.specs.declared.entry.Rules.TheVariants.{Sc};
ghost use Rattle.mm_sched.specs.Buffer.{is_to, seen, store_of, without};
ghost use Rattle.mm_sched.specs.Event.{assigned, cell_of, is_int, is_same, moved, next, on, owned, pushed, started, written};
ghost use Rattle.mm_sched.specs.State.{Frame, Pending, State, at_cell, pending_of};
ghost use Rattle.mm_sched.specs.Turn.{is_drained, IsAt, IsUnder, StepsTo, Waits, Whenever};

/// A Set gives its local the value.
#[tactic(auto, using(crate::proofs::Kindwise::set))]
pub fn a_set_gives_the_value()
    ensures { (l : ℕ) (e : Pure) → Whenever (Set l e) (λ r p s t f. StepsTo r p s t (moved s t (assigned f l (value_of e f.locals)))) }
{}

/// A Load gives its local what the thread sees at the cell: its own newest pending store, else memory.
#[tactic(auto, using(crate::proofs::Kindwise::load, crate::proofs::Kindwise::load_nowhere))]
pub fn a_load_gives_what_is_seen()
    ensures gives { (l : ℕ) (target : Target) → Whenever (Load l target) (λ r p s t f. (c : ℕ) →
        cell_of (length s.memory) f.locals target ≡ Some c → StepsTo r p s t (moved s t (assigned f l (seen s t c)))) }
    ensures waits { (l : ℕ) (target : Target) → Whenever (Load l target) (λ r p s t f.
        cell_of (length s.memory) f.locals target ≡ None → Waits r p s t) }
{}

/// A Store is made pending or reaches memory at once, as the machine's stores do, or it waits.
#[tactic(auto, using(crate::proofs::Kindwise::store_pends, crate::proofs::Kindwise::store_writes, crate::proofs::Kindwise::store_waits, crate::proofs::Kindwise::store_nowhere))]
pub fn a_store_acts_as_the_machine_lets_it()
    ensures pends { (target : Target) (e : Pure) → Whenever (Store target e) (λ r p s t f. (c : ℕ) →
        cell_of (length s.memory) f.locals target ≡ Some c → store_of r t f.place (pending_of s t) c ≡ Delayed →
        StepsTo r p s t (moved (pushed s t c (value_of e f.locals)) t (on f))) }
    ensures writes { (target : Target) (e : Pure) → Whenever (Store target e) (λ r p s t f. (c : ℕ) →
        cell_of (length s.memory) f.locals target ≡ Some c → store_of r t f.place (pending_of s t) c ≡ AtOnce →
        StepsTo r p s t (moved (written s c (value_of e f.locals)) t (on f))) }
    ensures has_no_room { (target : Target) (e : Pure) → Whenever (Store target e) (λ r p s t f. (c : ℕ) →
        cell_of (length s.memory) f.locals target ≡ Some c → store_of r t f.place (pending_of s t) c ≡ NotEnabled →
        Waits r p s t) }
    ensures waits { (target : Target) (e : Pure) → Whenever (Store target e) (λ r p s t f.
        cell_of (length s.memory) f.locals target ≡ None → Waits r p s t) }
{}

/// An Input gives its local the value of an `in` entry, which is an int of 32 bits. No other instruction takes such an entry,
/// and an Input takes no `step`.
#[tactic(auto, using(crate::proofs::Kindwise::input_takes, crate::proofs::Kindwise::input_no_int, crate::proofs::Kindwise::input_no_step, crate::proofs::Kindwise::input_alone))]
pub fn an_input_takes_its_value()
    ensures takes { (l : ℕ) → Whenever (Input l) (λ r p s t f. (v : ℤ) → is_int v ≡ true →
        next r p s (In t v) ≡ Some (moved s t (assigned f l v))) }
    ensures no_int { (l : ℕ) → Whenever (Input l) (λ r p s t f. (v : ℤ) → is_int v ≡ false → next r p s (In t v) ≡ None) }
    ensures no_step { (l : ℕ) → Whenever (Input l) (λ r p s t f. Waits r p s t) }
    ensures alone { (i : Instr) → ((l : ℕ) → i ≢ Input l) → Whenever i (λ r p s t f. (v : ℤ) → next r p s (In t v) ≡ None) }
{}

/// A Jump goes to its place.
#[tactic(auto, using(crate::proofs::Kindwise::jump))]
pub fn a_jump_goes_to_its_place()
    ensures { (k : ℕ) → Whenever (Jump k) (λ r p s t f. StepsTo r p s t (moved s t (record f { place = k }))) }
{}

/// A Branch goes to its place where its value is 0, else on.
#[tactic(auto, using(crate::proofs::Kindwise::branch_goes, crate::proofs::Kindwise::branch_goes_on))]
pub fn a_branch_goes_where_its_value_is_zero()
    ensures goes { (e : Pure) (k : ℕ) → Whenever (Branch e k) (λ r p s t f. is_zero (value_of e f.locals) ≡ true →
        StepsTo r p s t (moved s t (record f { place = k }))) }
    ensures goes_on { (e : Pure) (k : ℕ) → Whenever (Branch e k) (λ r p s t f. is_zero (value_of e f.locals) ≡ false →
        StepsTo r p s t (moved s t (on f))) }
{}

/// An Assert whose value is 0 sets the verdict, and goes on all the same.
#[tactic(auto, using(crate::proofs::Kindwise::assert_fails, crate::proofs::Kindwise::assert_holds))]
pub fn an_assert_fails_where_its_value_is_zero()
    ensures fails { (e : Pure) (n : ℕ) → Whenever (Assert e n) (λ r p s t f. is_zero (value_of e f.locals) ≡ true →
        StepsTo r p s t (moved (record s { verdict = Some n }) t (on f))) }
    ensures holds { (e : Pure) (n : ℕ) → Whenever (Assert e n) (λ r p s t f. is_zero (value_of e f.locals) ≡ false →
        StepsTo r p s t (moved s t (on f))) }
{}

/// An Assume waits while its value is 0.
#[tactic(auto, using(crate::proofs::Kindwise::assume_holds, crate::proofs::Kindwise::assume_waits))]
pub fn an_assume_waits_while_its_value_is_zero()
    ensures holds { (e : Pure) → Whenever (Assume e) (λ r p s t f. is_zero (value_of e f.locals) ≡ false →
        StepsTo r p s t (moved s t (on f))) }
    ensures waits { (e : Pure) → Whenever (Assume e) (λ r p s t f. is_zero (value_of e f.locals) ≡ true → Waits r p s t) }
{}

/// What acts on memory itself, or with other threads, waits while the thread has a pending store.
#[tactic(auto, using(crate::proofs::Kindwise::drained_waits))]
pub fn a_drained_instruction_waits_for_flushes()
    ensures { (i : Instr) → is_drained i ≡ true → Whenever i (λ r p s t f. pending_of s t ≢ [] → Waits r p s t) }
{}

/// A Fence has no other effect.
#[tactic(auto, using(crate::proofs::Kindwise::fence))]
pub fn a_fence_goes_on()
    ensures { Whenever Fence (λ r p s t f. pending_of s t ≡ [] → StepsTo r p s t (moved s t (on f))) }
{}

/// A Lock takes a mutex that is free, and waits for one that any thread has, its own too.
#[tactic(auto, using(crate::proofs::Kindwise::lock_takes, crate::proofs::Kindwise::lock_waits, crate::proofs::Kindwise::lock_of_none))]
pub fn a_lock_takes_a_free_mutex()
    ensures takes { (m : ℕ) → Whenever (Lock m) (λ r p s t f. pending_of s t ≡ [] → slice_get s.owners m ≡ Some None →
        StepsTo r p s t (moved (owned s m (Some t)) t (on f))) }
    ensures waits { (m : ℕ) → Whenever (Lock m) (λ r p s t f. (u : ℕ) → slice_get s.owners m ≡ Some (Some u) → Waits r p s t) }
    ensures no_mutex { (m : ℕ) → Whenever (Lock m) (λ r p s t f. slice_get s.owners m ≡ None → Waits r p s t) }
{}

/// An Unlock gives back a mutex that the thread has, and waits at any other.
#[tactic(auto, using(crate::proofs::Kindwise::unlock_gives, crate::proofs::Kindwise::unlock_waits))]
pub fn an_unlock_gives_back_its_own_mutex()
    ensures gives { (m : ℕ) → Whenever (Unlock m) (λ r p s t f. pending_of s t ≡ [] → slice_get s.owners m ≡ Some (Some t) →
        StepsTo r p s t (moved (owned s m None) t (on f))) }
    ensures waits { (m : ℕ) → Whenever (Unlock m) (λ r p s t f. slice_get s.owners m ≢ Some (Some t) → Waits r p s t) }
{}

/// An Add gives its local the old value of the cell, and memory the sum, which wraps.
#[tactic(auto, using(crate::proofs::Kindwise::add, crate::proofs::Kindwise::add_nowhere))]
pub fn an_add_gives_the_old_value()
    ensures adds { (l : ℕ) (target : Target) (e : Pure) → Whenever (Add l target e) (λ r p s t f. (c : ℕ) →
        pending_of s t ≡ [] → cell_of (length s.memory) f.locals target ≡ Some c →
        StepsTo r p s t (moved (written s c (int_wrapping_add w32 (at_cell s c) (value_of e f.locals))) t (assigned f l (at_cell s c)))) }
    ensures waits { (l : ℕ) (target : Target) (e : Pure) → Whenever (Add l target e) (λ r p s t f.
        cell_of (length s.memory) f.locals target ≡ None → Waits r p s t) }
{}

/// A Cas writes where the cell has the value that it looks for, and says by 1 or 0 whether it did.
#[tactic(auto, using(crate::proofs::Kindwise::cas_writes, crate::proofs::Kindwise::cas_nowhere))]
pub fn a_cas_writes_where_it_finds_its_value()
    ensures writes { (l : ℕ) (target : Target) (e g : Pure) → Whenever (Cas l target e g) (λ r p s t f. (c : ℕ) →
        pending_of s t ≡ [] → cell_of (length s.memory) f.locals target ≡ Some c →
        is_same (at_cell s c) (value_of e f.locals) ≡ true →
        StepsTo r p s t (moved (written s c (value_of g f.locals)) t (assigned f l (pos 1)))) }
    ensures misses { (l : ℕ) (target : Target) (e g : Pure) → Whenever (Cas l target e g) (λ r p s t f. (c : ℕ) →
        pending_of s t ≡ [] → cell_of (length s.memory) f.locals target ≡ Some c →
        is_same (at_cell s c) (value_of e f.locals) ≡ false → StepsTo r p s t (moved s t (assigned f l (pos 0)))) }
    ensures waits { (l : ℕ) (target : Target) (e g : Pure) → Whenever (Cas l target e g) (λ r p s t f.
        cell_of (length s.memory) f.locals target ≡ None → Waits r p s t) }
{}

/// A Start starts a thread that is not started, and waits at any other.
#[tactic(auto, using(crate::proofs::Kindwise::start, crate::proofs::Kindwise::start_twice, crate::proofs::Kindwise::start_of_none))]
pub fn a_start_starts_a_thread_once()
    ensures starts { (u : ℕ) → Whenever (Start u) (λ r p s t f. (g : Frame) → pending_of s t ≡ [] →
        slice_get s.threads u ≡ Some g → g.started ≡ false → StepsTo r p s t (moved (started s u) t (on f))) }
    ensures twice { (u : ℕ) → Whenever (Start u) (λ r p s t f. (g : Frame) →
        slice_get s.threads u ≡ Some g → g.started ≡ true → Waits r p s t) }
    ensures no_thread { (u : ℕ) → Whenever (Start u) (λ r p s t f. slice_get s.threads u ≡ None → Waits r p s t) }
{}

/// A Join goes on once the other thread has ended and its stores have reached memory.
#[tactic(auto, using(crate::proofs::Kindwise::join, crate::proofs::Kindwise::join_running, crate::proofs::Kindwise::join_pending, crate::proofs::Kindwise::join_of_none))]
pub fn a_join_waits_for_the_thread()
    ensures goes_on { (u : ℕ) → Whenever (Join u) (λ r p s t f. (g : Frame) → pending_of s t ≡ [] →
        slice_get s.threads u ≡ Some g → g.ended ≡ true → pending_of s u ≡ [] → StepsTo r p s t (moved s t (on f))) }
    ensures running { (u : ℕ) → Whenever (Join u) (λ r p s t f. (g : Frame) →
        slice_get s.threads u ≡ Some g → g.ended ≡ false → Waits r p s t) }
    ensures pending { (u : ℕ) → Whenever (Join u) (λ r p s t f. pending_of s u ≢ [] → Waits r p s t) }
    ensures no_thread { (u : ℕ) → Whenever (Join u) (λ r p s t f. slice_get s.threads u ≡ None → Waits r p s t) }
{}

/// An atomic section is begun where no thread is in one, and ended by its thread.
#[tactic(auto, using(crate::proofs::Kindwise::section_begins, crate::proofs::Kindwise::section_is_taken, crate::proofs::Kindwise::section_ends, crate::proofs::Kindwise::section_is_not_its_own))]
pub fn a_section_has_one_thread()
    ensures begins { Whenever AtomBegin (λ r p s t f. s.section ≡ None →
        StepsTo r p s t (moved (record s { section = Some t }) t (on f))) }
    ensures taken { Whenever AtomBegin (λ r p s t f. s.section ≢ None → Waits r p s t) }
    ensures ends { Whenever AtomEnd (λ r p s t f. s.section ≡ Some t →
        StepsTo r p s t (moved (record s { section = None }) t (on f))) }
    ensures not_its_own { Whenever AtomEnd (λ r p s t f. s.section ≢ Some t → Waits r p s t) }
{}

/// End ends the thread, which stays at this place.
#[tactic(auto, using(crate::proofs::Kindwise::end))]
pub fn end_ends_the_thread()
    ensures { Whenever End (λ r p s t f. StepsTo r p s t (moved s t (record f { ended = true }))) }
{}

/// A thread steps, and takes an `in` entry, only where it is at an instruction and may step.
pub fn a_thread_steps_where_it_may()
    ensures step { (r : Rules) (p : Listing) (s after : State) (t : ℕ) → StepsTo r p s t after → (f : Frame) × (i : Instr) × IsAt p s t f i }
    ensures input { (r : Rules) (p : Listing) (s after : State) (t : ℕ) (v : ℤ) → next r p s (In t v) ≡ Some after →
        (f : Frame) × (i : Instr) × IsAt p s t f i }
{}

/// A flush moves the thread's oldest store under TSO, and its oldest store to the cell under PSO, to memory. It needs such a
/// store and nothing else: the thread may have ended, and an assertion may have failed. Each model has its own form of flush.
#[tactic(auto, using(crate::proofs::Kindwise::flush_tso, crate::proofs::Kindwise::flush_pso, crate::proofs::Kindwise::flush_of_none, crate::proofs::Kindwise::flush_of_no_cell, crate::proofs::Kindwise::flush_no_list, crate::proofs::Kindwise::flush_no_cell))]
pub fn a_flush_moves_the_oldest_store()
    ensures tso { (r : Rules) (p : Listing) (s : State) (t : ℕ) (q : Pending) (rest : List Pending) → IsUnder Tso r →
        pending_of s t ≡ q ∷ rest →
        next r p s (Flush t) ≡ Some (record (written s q.0 q.1) { pending = slice_set s.pending t rest }) }
    ensures pso { (r : Rules) (p : Listing) (s : State) (t c : ℕ) (q : Pending) → IsUnder Pso r →
        find (is_to c) (pending_of s t) ≡ Some q →
        next r p s (FlushCell t c) ≡ Some (record (written s c q.1) { pending = slice_set s.pending t (without (pending_of s t) c) }) }
    ensures nothing { (r : Rules) (p : Listing) (s : State) (t : ℕ) → IsUnder Tso r → pending_of s t ≡ [] →
        next r p s (Flush t) ≡ None }
    ensures nothing_to_the_cell { (r : Rules) (p : Listing) (s : State) (t c : ℕ) → IsUnder Pso r →
        find (is_to c) (pending_of s t) ≡ None → next r p s (FlushCell t c) ≡ None }
    ensures no_list { (r : Rules) (p : Listing) (s : State) (t : ℕ) → IsUnder Pso r → next r p s (Flush t) ≡ None }
    ensures no_cell { (r : Rules) (p : Listing) (s : State) (t c : ℕ) → IsUnder Tso r → next r p s (FlushCell t c) ≡ None }
    ensures sc { (p : Listing) (s : State) (t c : ℕ) → (next Sc p s (Flush t) ≡ None) × (next Sc p s (FlushCell t c) ≡ None) }
{}
