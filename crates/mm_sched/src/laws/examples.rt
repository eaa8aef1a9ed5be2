//! Examples of the machines' definitions.
#![tactic(auto, using(crate::proofs::Computing::folds), unfolding(mm_goto::specs::Value::value_of, crate::specs::State::initial, crate::specs::Event::event, crate::specs::Event::act, crate::specs::Event::acted, crate::specs::Event::flushed))]

ghost use Rattle.std.specs.Prelude.{◌≡◌, pos, negsuc, true, false, [], ◌∷◌, Some, None};
ghost use Rattle.mm_sched.specs.declared.entry.Rules.TheVariants.{Sc, Partial};
ghost use Rattle.mm_sched.specs.declared.entry.Entry.TheVariants.{Step, In, Flush, FlushCell};
ghost use Rattle.mm_goto.specs.declared.program.Target.TheVariants as target;
ghost use Rattle.mm_goto.specs.declared.program.Instr.TheVariants.{Set, Load, Store, Input, Jump, Branch, Assert, Assume, Fence, Lock, Unlock, Add, Start, Join, AtomBegin, AtomEnd, End};
ghost use Rattle.mm_goto.specs.declared.pure.Binary.TheVariants as binary;
ghost use Rattle.mm_goto.specs.declared.model.Model.TheVariants.{Tso, Pso};
ghost use Rattle.mm_goto.specs.Bounds.{uniform};
ghost use Rattle.mm_sched.specs.Runs.{FailAlike, failing_thread};
ghost use Rattle.mm_goto.specs.Terms.{constant};
ghost use Rattle.mm_sched.specs.Tiny.{alone, beside, put, get, cas, fail, failing, result_of, tso, pso, first_alone, second_alone, from_values, of_two_mutexes, store_buffering, message_passing, memory_after, local_after, verdict_after, place_after, enabled_after};

/// A load takes the thread's own newest pending store to the cell. Memory has a store after its flush alone.
pub fn own_stores_are_seen()
    ensures own { local_after (tso 1) (alone (put 0 5 ∷ get 0 0 ∷ End ∷ []))
        (Step 0 ∷ Step 0 ∷ []) 0 0 ≡ Some (pos 5) }
    ensures newest { local_after (tso 2) (alone (put 0 5 ∷ put 0 6 ∷ get 0 0 ∷ End ∷ []))
        (Step 0 ∷ Step 0 ∷ Step 0 ∷ []) 0 0 ≡ Some (pos 6) }
    ensures pending { memory_after (tso 1) (alone (put 0 5 ∷ End ∷ [])) (Step 0 ∷ []) ≡ Some (pos 0 ∷ pos 0 ∷ []) }
    ensures flushed { memory_after (tso 1) (alone (put 0 5 ∷ End ∷ []))
        (Step 0 ∷ Flush 0 ∷ []) ≡ Some (pos 5 ∷ pos 0 ∷ []) }
    ensures at_once { memory_after Sc (alone (put 0 5 ∷ End ∷ [])) (Step 0 ∷ []) ≡ Some (pos 5 ∷ pos 0 ∷ []) }
    ensures other { local_after (tso 1) (beside (Start 1 ∷ put 0 5 ∷ End ∷ []) (get 0 0 ∷ End ∷ []))
        (Step 0 ∷ Step 0 ∷ Step 1 ∷ []) 1 0 ≡ Some (pos 0) }
{}

/// A store waits until fewer than the bound are pending: in all under TSO, to its cell under PSO.
pub fn a_store_waits_for_room()
    ensures full { enabled_after (tso 1) (alone (put 0 5 ∷ put 1 6 ∷ End ∷ []))
        (Step 0 ∷ []) (Step 0) ≡ Some false }
    ensures room { enabled_after (tso 2) (alone (put 0 5 ∷ put 1 6 ∷ End ∷ []))
        (Step 0 ∷ []) (Step 0) ≡ Some true }
    ensures full_cell { enabled_after (pso 1) (alone (put 0 5 ∷ put 0 6 ∷ End ∷ []))
        (Step 0 ∷ []) (Step 0) ≡ Some false }
    ensures other_cell { enabled_after (pso 1) (alone (put 0 5 ∷ put 1 6 ∷ End ∷ []))
        (Step 0 ∷ []) (Step 0) ≡ Some true }
{}

/// Pending stores may be flushed when their thread has ended, and after a verdict.
pub fn flushes_need_no_running_thread()
    ensures ended { enabled_after (tso 1) (alone (put 0 5 ∷ End ∷ []))
        (Step 0 ∷ Step 0 ∷ []) (Flush 0) ≡ Some true }
    ensures no_step { enabled_after (tso 1) (alone (put 0 5 ∷ End ∷ []))
        (Step 0 ∷ Step 0 ∷ []) (Step 0) ≡ Some false }
    ensures failed { enabled_after (tso 1) (alone (put 0 5 ∷ fail 3 ∷ End ∷ []))
        (Step 0 ∷ Step 0 ∷ []) (Flush 0) ≡ Some true }
    ensures nothing { enabled_after (tso 1) (alone (End ∷ [])) [] (Flush 0) ≡ Some false }
{}

/// Under TSO stores reach memory in their order, under PSO those to one cell do.
pub fn stores_keep_their_order()
    ensures tso { memory_after (tso 2) (alone (put 0 5 ∷ put 1 6 ∷ End ∷ []))
        (Step 0 ∷ Step 0 ∷ Flush 0 ∷ []) ≡ Some (pos 5 ∷ pos 0 ∷ []) }
    ensures tso_both { memory_after (tso 2) (alone (put 0 5 ∷ put 1 6 ∷ End ∷ []))
        (Step 0 ∷ Step 0 ∷ Flush 0 ∷ Flush 0 ∷ []) ≡ Some (pos 5 ∷ pos 6 ∷ []) }
    ensures overtakes { memory_after (pso 1) (alone (put 0 5 ∷ put 1 6 ∷ End ∷ []))
        (Step 0 ∷ Step 0 ∷ FlushCell 0 1 ∷ []) ≡ Some (pos 0 ∷ pos 6 ∷ []) }
    ensures pso_both { memory_after (pso 1) (alone (put 0 5 ∷ put 1 6 ∷ End ∷ []))
        (Step 0 ∷ Step 0 ∷ FlushCell 0 1 ∷ FlushCell 0 0 ∷ []) ≡ Some (pos 5 ∷ pos 6 ∷ []) }
    ensures one_cell { memory_after (pso 2) (alone (put 0 5 ∷ put 0 6 ∷ End ∷ []))
        (Step 0 ∷ Step 0 ∷ FlushCell 0 0 ∷ []) ≡ Some (pos 5 ∷ pos 0 ∷ []) }
    ensures newest_last { memory_after (pso 2) (alone (put 0 5 ∷ put 0 6 ∷ End ∷ []))
        (Step 0 ∷ Step 0 ∷ FlushCell 0 0 ∷ FlushCell 0 0 ∷ []) ≡ Some (pos 6 ∷ pos 0 ∷ []) }
{}

/// Each model has its own form of flush, and sequential consistency has none.
pub fn the_other_form_of_flush_is_refused()
    ensures tso { enabled_after (tso 1) (alone (put 0 5 ∷ End ∷ []))
        (Step 0 ∷ []) (FlushCell 0 0) ≡ Some false }
    ensures pso { enabled_after (pso 1) (alone (put 0 5 ∷ End ∷ [])) (Step 0 ∷ []) (Flush 0) ≡ Some false }
    ensures sc { enabled_after Sc (alone (put 0 5 ∷ End ∷ [])) (Step 0 ∷ []) (Flush 0) ≡ Some false }
    ensures sc_cell { enabled_after Sc (alone (put 0 5 ∷ End ∷ [])) (Step 0 ∷ []) (FlushCell 0 0) ≡ Some false }
{}

/// What acts on memory itself, or with other threads, waits until the thread has nothing pending.
pub fn drained_instructions_wait()
    ensures fence { enabled_after (tso 1) (alone (put 0 5 ∷ Fence ∷ End ∷ []))
        (Step 0 ∷ []) (Step 0) ≡ Some false }
    ensures fence_goes_on { enabled_after (tso 1) (alone (put 0 5 ∷ Fence ∷ End ∷ []))
        (Step 0 ∷ Flush 0 ∷ []) (Step 0) ≡ Some true }
    ensures lock { enabled_after (pso 1) (alone (put 0 5 ∷ Lock 0 ∷ End ∷ []))
        (Step 0 ∷ []) (Step 0) ≡ Some false }
    ensures lock_goes_on { enabled_after (pso 1) (alone (put 0 5 ∷ Lock 0 ∷ End ∷ []))
        (Step 0 ∷ FlushCell 0 0 ∷ []) (Step 0) ≡ Some true }
    ensures unlock { enabled_after (tso 1) (alone (Lock 0 ∷ put 0 5 ∷ Unlock 0 ∷ End ∷ []))
        (Step 0 ∷ Step 0 ∷ []) (Step 0) ≡ Some false }
    ensures start { enabled_after (tso 1) (beside (put 0 5 ∷ Start 1 ∷ End ∷ []) (End ∷ []))
        (Step 0 ∷ []) (Step 0) ≡ Some false }
    ensures start_goes_on { enabled_after (tso 1) (beside (put 0 5 ∷ Start 1 ∷ End ∷ []) (End ∷ []))
        (Step 0 ∷ Flush 0 ∷ []) (Step 0) ≡ Some true }
    ensures join { enabled_after (tso 1) (beside (Start 1 ∷ put 0 5 ∷ Join 1 ∷ End ∷ []) (End ∷ []))
        (Step 0 ∷ Step 1 ∷ Step 0 ∷ []) (Step 0) ≡ Some false }
    ensures join_goes_on { enabled_after (tso 1) (beside (Start 1 ∷ put 0 5 ∷ Join 1 ∷ End ∷ []) (End ∷ []))
        (Step 0 ∷ Step 1 ∷ Step 0 ∷ Flush 0 ∷ []) (Step 0) ≡ Some true }
    ensures add { enabled_after (tso 1) (alone (put 0 5 ∷ Add 0 (target.Cell 1) (constant (pos 1)) ∷ End ∷ []))
        (Step 0 ∷ []) (Step 0) ≡ Some false }
    ensures cas { enabled_after (pso 1) (alone (put 0 5 ∷ cas 0 1 0 1 ∷ End ∷ []))
        (Step 0 ∷ []) (Step 0) ≡ Some false }
{}

/// An Add writes the sum, which wraps, and gives the old value. A Cas writes where the cell has the value that it looks
/// for, and says whether it did.
pub fn updates_act_on_memory()
    ensures sum { memory_after Sc (alone (put 0 5 ∷ Add 0 (target.Cell 0) (constant (pos 3)) ∷ End ∷ []))
        (Step 0 ∷ Step 0 ∷ []) ≡ Some (pos 8 ∷ pos 0 ∷ []) }
    ensures old { local_after Sc (alone (put 0 5 ∷ Add 0 (target.Cell 0) (constant (pos 3)) ∷ End ∷ []))
        (Step 0 ∷ Step 0 ∷ []) 0 0 ≡ Some (pos 5) }
    ensures wraps { memory_after Sc (alone (put 0 2147483647 ∷ Add 0 (target.Cell 0) (constant (pos 1)) ∷ End ∷ []))
        (Step 0 ∷ Step 0 ∷ []) ≡ Some (negsuc 2147483647 ∷ pos 0 ∷ []) }
    ensures writes { memory_after Sc (alone (put 0 5 ∷ cas 0 0 5 7 ∷ End ∷ []))
        (Step 0 ∷ Step 0 ∷ []) ≡ Some (pos 7 ∷ pos 0 ∷ []) }
    ensures wrote { local_after Sc (alone (put 0 5 ∷ cas 0 0 5 7 ∷ End ∷ []))
        (Step 0 ∷ Step 0 ∷ []) 0 0 ≡ Some (pos 1) }
    ensures misses { memory_after Sc (alone (put 0 5 ∷ cas 0 0 4 7 ∷ End ∷ []))
        (Step 0 ∷ Step 0 ∷ []) ≡ Some (pos 5 ∷ pos 0 ∷ []) }
    ensures missed { local_after Sc (alone (Set 0 (constant (pos 9)) ∷ cas 0 0 4 7 ∷ End ∷ []))
        (Step 0 ∷ Step 0 ∷ []) 0 0 ≡ Some (pos 0) }
{}

/// A mutex is taken where it is free, and given back by its owner alone.
pub fn mutexes_have_one_owner()
    ensures free { enabled_after Sc (alone (Lock 0 ∷ Lock 0 ∷ End ∷ [])) [] (Step 0) ≡ Some true }
    ensures own { enabled_after Sc (alone (Lock 0 ∷ Lock 0 ∷ End ∷ [])) (Step 0 ∷ []) (Step 0) ≡ Some false }
    ensures again { enabled_after Sc (alone (Lock 0 ∷ Unlock 0 ∷ Lock 0 ∷ End ∷ []))
        (Step 0 ∷ Step 0 ∷ []) (Step 0) ≡ Some true }
    ensures owner { enabled_after Sc (alone (Lock 0 ∷ Unlock 0 ∷ End ∷ [])) (Step 0 ∷ []) (Step 0) ≡ Some true }
    ensures nobody { enabled_after Sc (alone (Unlock 0 ∷ End ∷ [])) [] (Step 0) ≡ Some false }
    ensures other { enabled_after Sc (beside (Start 1 ∷ Lock 0 ∷ End ∷ []) (Unlock 0 ∷ End ∷ []))
        (Step 0 ∷ Step 0 ∷ []) (Step 1) ≡ Some false }
    ensures of_two { enabled_after Sc (of_two_mutexes (Lock 1 ∷ Lock 0 ∷ End ∷ [])) (Step 0 ∷ []) (Step 0) ≡ Some true }
    ensures of_two_again { enabled_after Sc (of_two_mutexes (Lock 1 ∷ Lock 1 ∷ End ∷ []))
        (Step 0 ∷ []) (Step 0) ≡ Some false }
{}

/// A thread steps once it is started, which happens once. A Join waits until it has ended and its stores are flushed.
pub fn threads_start_and_join()
    ensures not_started { enabled_after Sc (beside (Start 1 ∷ End ∷ []) (End ∷ [])) [] (Step 1) ≡ Some false }
    ensures started { enabled_after Sc (beside (Start 1 ∷ End ∷ []) (End ∷ [])) (Step 0 ∷ []) (Step 1) ≡ Some true }
    ensures once { enabled_after Sc (beside (Start 1 ∷ Start 1 ∷ End ∷ []) (End ∷ []))
        (Step 0 ∷ []) (Step 0) ≡ Some false }
    ensures no_thread { enabled_after Sc (alone (End ∷ [])) [] (Step 1) ≡ Some false }
    ensures running { enabled_after (tso 1) (beside (Start 1 ∷ Join 1 ∷ End ∷ []) (put 0 5 ∷ End ∷ []))
        (Step 0 ∷ []) (Step 0) ≡ Some false }
    ensures pending { enabled_after (tso 1) (beside (Start 1 ∷ Join 1 ∷ End ∷ []) (put 0 5 ∷ End ∷ []))
        (Step 0 ∷ Step 1 ∷ Step 1 ∷ []) (Step 0) ≡ Some false }
    ensures flushed { enabled_after (tso 1) (beside (Start 1 ∷ Join 1 ∷ End ∷ []) (put 0 5 ∷ End ∷ []))
        (Step 0 ∷ Step 1 ∷ Step 1 ∷ Flush 1 ∷ []) (Step 0) ≡ Some true }
{}

/// An index outside its array and an address of no cell have no next state.
pub fn a_target_is_a_cell()
    ensures last { enabled_after Sc (alone (Load 0 (target.Elem 0 2 (constant (pos 1))) ∷ End ∷ []))
        [] (Step 0) ≡ Some true }
    ensures past { enabled_after Sc (alone (Load 0 (target.Elem 0 2 (constant (pos 2))) ∷ End ∷ []))
        [] (Step 0) ≡ Some false }
    ensures below { enabled_after Sc (alone (Load 0 (target.Elem 0 2 (constant (negsuc 0))) ∷ End ∷ []))
        [] (Step 0) ≡ Some false }
    ensures store { enabled_after Sc (alone (Store (target.Elem 0 2 (constant (pos 2))) (constant (pos 1)) ∷ End ∷ []))
        [] (Step 0) ≡ Some false }
    ensures null { enabled_after Sc (alone (Load 0 (target.Deref (constant (pos 0))) ∷ End ∷ []))
        [] (Step 0) ≡ Some false }
    ensures first_cell { enabled_after Sc (alone (Load 0 (target.Deref (constant (pos 1))) ∷ End ∷ []))
        [] (Step 0) ≡ Some true }
    ensures no_cell { enabled_after Sc (alone (Load 0 (target.Deref (constant (pos 3))) ∷ End ∷ []))
        [] (Step 0) ≡ Some false }
    ensures element { memory_after Sc (alone (Store (target.Elem 0 2 (constant (pos 1))) (constant (pos 4)) ∷ End ∷ []))
        (Step 0 ∷ []) ≡ Some (pos 0 ∷ pos 4 ∷ []) }
    ensures behind_others { memory_after Sc (alone (Store (target.Elem 1 1 (constant (pos 0))) (constant (pos 4)) ∷ End ∷ []))
        (Step 0 ∷ []) ≡ Some (pos 0 ∷ pos 4 ∷ []) }
    ensures pointee { memory_after Sc (alone (Store (target.Deref (constant (pos 2))) (constant (pos 4)) ∷ End ∷ []))
        (Step 0 ∷ []) ≡ Some (pos 0 ∷ pos 4 ∷ []) }
{}

/// A division by zero gives 0, the least int by -1 the least int with remainder 0, and a shift counts modulo 32.
pub fn values_at_the_edges()
    ensures by_zero { result_of binary.Div (pos 7) (pos 0) ≡ pos 0 }
    ensures rest_by_zero { result_of binary.Rem (pos 7) (pos 0) ≡ pos 0 }
    ensures least { result_of binary.Div (negsuc 2147483647) (negsuc 0) ≡ negsuc 2147483647 }
    ensures least_rest { result_of binary.Rem (negsuc 2147483647) (negsuc 0) ≡ pos 0 }
    ensures toward_zero { result_of binary.Div (negsuc 6) (pos 2) ≡ negsuc 2 }
    ensures left_by_32 { result_of binary.Shl (pos 5) (pos 32) ≡ pos 5 }
    ensures left_by_less { result_of binary.Shl (pos 1) (negsuc 0) ≡ negsuc 2147483647 }
    ensures right_by_32 { result_of binary.Shr (negsuc 7) (pos 32) ≡ negsuc 7 }
    ensures right_by_less { result_of binary.Shr (negsuc 7) (negsuc 0) ≡ negsuc 0 }
{}

/// An assertion that fails sets the verdict, moves its thread on, and stops every thread.
pub fn a_failing_assertion_moves_on()
    ensures verdict { verdict_after Sc (alone (fail 3 ∷ End ∷ [])) (Step 0 ∷ []) ≡ Some (Some 3) }
    ensures place { place_after Sc (alone (fail 3 ∷ End ∷ [])) (Step 0 ∷ []) 0 ≡ Some 1 }
    ensures stops { enabled_after Sc (alone (fail 3 ∷ End ∷ [])) (Step 0 ∷ []) (Step 0) ≡ Some false }
    ensures stops_others { enabled_after Sc (beside (Start 1 ∷ fail 3 ∷ End ∷ []) (End ∷ []))
        (Step 0 ∷ Step 0 ∷ []) (Step 1) ≡ Some false }
    ensures holds { verdict_after Sc (alone (Assert (constant (pos 2)) 3 ∷ End ∷ [])) (Step 0 ∷ []) ≡ Some None }
{}

/// A Jump goes to its place, a Branch where its value is 0, an Assume waits, and End stays.
pub fn control_goes_on()
    ensures jump { place_after Sc (alone (Jump 2 ∷ End ∷ End ∷ [])) (Step 0 ∷ []) 0 ≡ Some 2 }
    ensures zero { place_after Sc (alone (Branch (constant (pos 0)) 2 ∷ End ∷ End ∷ []))
        (Step 0 ∷ []) 0 ≡ Some 2 }
    ensures not_zero { place_after Sc (alone (Branch (constant (negsuc 0)) 2 ∷ End ∷ End ∷ []))
        (Step 0 ∷ []) 0 ≡ Some 1 }
    ensures assume { enabled_after Sc (alone (Assume (constant (pos 0)) ∷ End ∷ [])) [] (Step 0) ≡ Some false }
    ensures assume_holds { place_after Sc (alone (Assume (constant (pos 2)) ∷ End ∷ [])) (Step 0 ∷ []) 0 ≡ Some 1 }
    ensures end { place_after Sc (alone (Fence ∷ End ∷ [])) (Step 0 ∷ Step 0 ∷ []) 0 ≡ Some 1 }
{}

/// An Input takes an int of 32 bits by an entry of its own, which no other instruction does.
pub fn inputs_take_their_value()
    ensures takes { local_after Sc (alone (Input 1 ∷ End ∷ [])) (In 0 (negsuc 6) ∷ []) 0 1 ≡ Some (negsuc 6) }
    ensures no_step { enabled_after Sc (alone (Input 1 ∷ End ∷ [])) [] (Step 0) ≡ Some false }
    ensures too_large { enabled_after Sc (alone (Input 1 ∷ End ∷ [])) [] (In 0 (pos 2147483648)) ≡ Some false }
    ensures least { enabled_after Sc (alone (Input 1 ∷ End ∷ [])) [] (In 0 (negsuc 2147483647)) ≡ Some true }
    ensures other_kind { enabled_after Sc (alone (End ∷ [])) [] (In 0 (pos 1)) ≡ Some false }
{}

/// No other thread steps while one is in an atomic section, which its thread alone leaves.
pub fn sections_are_atomic()
    ensures other { enabled_after Sc (beside (Start 1 ∷ AtomBegin ∷ AtomEnd ∷ End ∷ []) (End ∷ []))
        (Step 0 ∷ Step 0 ∷ []) (Step 1) ≡ Some false }
    ensures own { enabled_after Sc (beside (Start 1 ∷ AtomBegin ∷ AtomEnd ∷ End ∷ []) (End ∷ []))
        (Step 0 ∷ Step 0 ∷ []) (Step 0) ≡ Some true }
    ensures left { enabled_after Sc (beside (Start 1 ∷ AtomBegin ∷ AtomEnd ∷ End ∷ []) (End ∷ []))
        (Step 0 ∷ Step 0 ∷ Step 0 ∷ []) (Step 1) ≡ Some true }
    ensures again { enabled_after Sc (alone (AtomBegin ∷ AtomBegin ∷ End ∷ []))
        (Step 0 ∷ []) (Step 0) ≡ Some false }
    ensures no_section { enabled_after Sc (alone (AtomEnd ∷ End ∷ [])) [] (Step 0) ≡ Some false }
{}

/// Where the second store alone is outside the set, it writes at once, and waits for the first: under PSO if that is to
/// its cell.
pub fn stores_outside_the_set_write_at_once()
    ensures waits { enabled_after (Partial Tso (uniform 2) first_alone) (alone (put 0 5 ∷ put 1 6 ∷ End ∷ []))
        (Step 0 ∷ []) (Step 0) ≡ Some false }
    ensures writes { memory_after (Partial Tso (uniform 2) first_alone) (alone (put 0 5 ∷ put 1 6 ∷ End ∷ []))
        (Step 0 ∷ Flush 0 ∷ Step 0 ∷ []) ≡ Some (pos 5 ∷ pos 6 ∷ []) }
    ensures other_cell { memory_after (Partial Pso (uniform 2) first_alone) (alone (put 0 5 ∷ put 1 6 ∷ End ∷ []))
        (Step 0 ∷ Step 0 ∷ []) ≡ Some (pos 0 ∷ pos 6 ∷ []) }
    ensures same_cell { enabled_after (Partial Pso (uniform 2) first_alone) (alone (put 0 5 ∷ put 0 6 ∷ End ∷ []))
        (Step 0 ∷ []) (Step 0) ≡ Some false }
    ensures pends { memory_after (Partial Tso (uniform 2) first_alone) (alone (put 0 5 ∷ put 1 6 ∷ End ∷ []))
        (Step 0 ∷ []) ≡ Some (pos 0 ∷ pos 0 ∷ []) }
    ensures room { enabled_after (Partial Tso (uniform 0) first_alone) (alone (put 0 5 ∷ put 1 6 ∷ End ∷ []))
        [] (Step 0) ≡ Some false }
    ensures second_pends { memory_after (Partial Tso (uniform 2) second_alone) (alone (put 0 5 ∷ put 1 6 ∷ End ∷ []))
        (Step 0 ∷ Step 0 ∷ []) ≡ Some (pos 5 ∷ pos 0 ∷ []) }
{}

/// At the start each cell has its start value, each local is 0, and nothing is pending.
pub fn a_machine_begins_with_the_start_values()
    ensures cells { memory_after (tso 1) (from_values (pos 7) (negsuc 2)) [] ≡ Some (pos 7 ∷ negsuc 2 ∷ []) }
    ensures local { local_after (tso 1) (from_values (pos 7) (negsuc 2)) [] 0 1 ≡ Some (pos 0) }
    ensures read { local_after (tso 1) (from_values (pos 7) (negsuc 2)) (Step 0 ∷ []) 0 1 ≡ Some (negsuc 2) }
    ensures tso { enabled_after (tso 1) (from_values (pos 7) (negsuc 2)) [] (Flush 0) ≡ Some false }
    ensures pso { enabled_after (pso 1) (from_values (pos 7) (negsuc 2)) [] (FlushCell 0 1) ≡ Some false }
{}

/// The failing thread is that of the last `step` entry.
pub fn the_last_step_names_the_thread()
    ensures last { failing_thread (Step 0 ∷ Step 1 ∷ Flush 0 ∷ In 2 (pos 7) ∷ []) ≡ Some 1 }
    ensures none { failing_thread (In 2 (pos 7) ∷ Flush 0 ∷ []) ≡ None }
{}

/// Schedules fail alike where the failing thread's locals are the front of its locals in the other program: a local that is
/// missing there counts as none.
pub fn failing_alike_takes_all_locals()
    ensures more { FailAlike Sc Sc (failing 1 (pos 7)) (failing 2 (pos 7)) 3 (Step 0 ∷ Step 0 ∷ []) (Step 0 ∷ Step 0 ∷ []) }
    ensures missing { ¬ (FailAlike Sc Sc (failing 2 (pos 7)) (failing 1 (pos 7)) 3 (Step 0 ∷ Step 0 ∷ []) (Step 0 ∷ Step 0 ∷ [])) }
    ensures another { ¬ (FailAlike Sc Sc (failing 1 (pos 7)) (failing 1 (pos 8)) 3 (Step 0 ∷ Step 0 ∷ []) (Step 0 ∷ Step 0 ∷ [])) }
{}

/// Under TSO two threads can each read what the other's store has not reached yet. Under PSO a flag can be seen before
/// what it announces.
pub fn weak_outcomes_are_had()
    ensures store_buffering { local_after (tso 1) store_buffering
        (Step 0 ∷ Step 0 ∷ Step 1 ∷ Step 0 ∷ Step 1 ∷ []) 0 0 ≡ Some (pos 0) }
    ensures of_both { local_after (tso 1) store_buffering
        (Step 0 ∷ Step 0 ∷ Step 1 ∷ Step 0 ∷ Step 1 ∷ []) 1 0 ≡ Some (pos 0) }
    ensures flag { local_after (pso 1) message_passing
        (Step 0 ∷ Step 0 ∷ Step 0 ∷ FlushCell 0 1 ∷ Step 1 ∷ Step 1 ∷ []) 1 0 ≡ Some (pos 1) }
    ensures no_message { local_after (pso 1) message_passing
        (Step 0 ∷ Step 0 ∷ Step 0 ∷ FlushCell 0 1 ∷ Step 1 ∷ Step 1 ∷ []) 1 1 ≡ Some (pos 0) }
{}
