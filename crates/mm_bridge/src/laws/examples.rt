//! Runs in which a store outside the set gives a cycle.
#![tactic(auto, using(mm_sched::proofs::Computing::folds), unfolding(mm_goto::specs::Value::value_of, mm_sched::specs::State::initial, mm_sched::specs::Event::event, mm_sched::specs::Event::act, mm_sched::specs::Event::acted, mm_sched::specs::Event::flushed))]

ghost use Rattle.std.specs.Prelude.{◌≡◌, true, [], ◌∷◌, Some};
ghost use Rattle.mm_goto.specs.Bounds.{uniform};
ghost use Rattle.mm_goto.specs.declared.model.Model.TheVariants.{Tso, Pso};
ghost use Rattle.mm_sched.specs.State.{initial};
ghost use Rattle.mm_sched.specs.Tiny.{tso, pso, store_buffering, message_passing};
ghost use Rattle.mm_rungraph.specs.RunGraph.{layout_of};
ghost use Rattle.mm_rungraph.specs.Traces.{events_of};
ghost use Rattle.mm_reorder.specs.Cycles.{Cycle, Link};
ghost use Rattle.mm_bridge.specs.Tiny.{both_late, both_late_events, message_late, message_late_events};

/// Store buffering under TSO: where no store is in the set, the run that reads 0 twice has a cycle.
pub fn store_buffering_has_a_cycle()
    ensures run { events_of (tso 1) store_buffering (initial store_buffering) both_late ≡ Some both_late_events }
    ensures cycle { Cycle (Link (layout_of Tso (uniform 1) store_buffering) store_buffering [] both_late_events) 5 }
{}

/// Message passing under PSO: where the message is not in the set, the run that reads the flag before it has a cycle.
pub fn message_passing_has_a_cycle()
    ensures run { events_of (pso 1) message_passing (initial message_passing) message_late ≡ Some message_late_events }
    ensures cycle { Cycle (Link (layout_of Pso (uniform 1) message_passing) message_passing [] message_late_events) 6 }
{}
