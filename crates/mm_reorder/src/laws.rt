//! The laws of orders and of cycles.

ghost use Rattle.std.specs.Prelude.{◌≡◌, ◌⊎◌, ℕ, Bool, List, ◌∷◌, map, Some, Contains};
ghost use Rattle.mm_goto.specs.Bounds.{Bounding};
ghost use Rattle.mm_goto.specs.declared.model.Model.{Model};
ghost use Rattle.mm_goto.specs.Listing.{Listing};
ghost use Rattle.mm_goto.specs.Valid.{IsValid};
ghost use Rattle.mm_sched.specs.declared.entry.Entry.{Entry};
ghost use Rattle.mm_sched.specs.declared.entry.Rules.TheVariants.{Buffered, Partial};
ghost use Rattle.mm_sched.specs.Runs.{FailAlike};
ghost use Rattle.mm_sched.specs.Sections.{HasNoSection};
ghost use Rattle.mm_sched.specs.State.{initial};
ghost use Rattle.mm_rungraph.specs.declared.graph.RunGraph.{RunGraph};
ghost use Rattle.mm_rungraph.specs.RunGraph.{layout_of, IsRunGraph};
ghost use Rattle.mm_rungraph.specs.Traces.{events_of};
ghost use Rattle.mm_reorder.specs.Cycles.{Cycle, Link, IsOvertaken};
ghost use Rattle.mm_reorder.specs.Orders.{KeepsEdges, Taken, IsReduced};

/// Take any order of the nodes of a failing run's graph that keeps its edges and those that a set of stores adds. Put each
/// store outside the set at its flush, and leave out what then stands behind the assertion that fails. What is left is a run
/// of the machine that buffers the set alone, in which the same happens, so that the same values are read; and it fails
/// alike.
pub fn an_order_that_keeps_the_edges_is_a_run()
    ensures runs { (m : Model) (bound : Bounding) (p : Listing) (es : List Entry) (g : RunGraph) (graph : IsRunGraph m bound p es g) →
        IsValid p → HasNoSection p → (set : List (List Bool)) (order : List ℕ) →
        KeepsEdges (layout_of m bound p) p set g graph.trace.events order → (steps : List Taken) →
        IsReduced (layout_of m bound p) p set g graph.trace.events order steps →
        events_of (Partial m bound set) p (initial p) (map (λ step. step.0) steps) ≡ Some (map (λ step. step.1) steps) }
    ensures alike { (m : Model) (bound : Bounding) (p : Listing) (es : List Entry) (g : RunGraph) (graph : IsRunGraph m bound p es g) →
        IsValid p → HasNoSection p → (set : List (List Bool)) (order : List ℕ) →
        KeepsEdges (layout_of m bound p) p set g graph.trace.events order → (steps : List Taken) →
        IsReduced (layout_of m bound p) p set g graph.trace.events order steps →
        FailAlike (Buffered m bound) (Partial m bound set) p p g.verdict es (map (λ step. step.0) steps) }
{}

/// A cycle of the edges of a failing run's graph with those that a set adds gives a store outside the set that is overtaken: a
/// later access of its thread, with no drained instruction between, is to another cell and is seen by another thread, and
/// from there edges lead back to the store's flush. So an order is wanting only where the set lacks such a store.
pub fn a_cycle_gives_a_store_that_is_overtaken()
    ensures { (m : Model) (bound : Bounding) (p : Listing) (es : List Entry) (g : RunGraph) (graph : IsRunGraph m bound p es g) →
        IsValid p → HasNoSection p → (set : List (List Bool)) (a : ℕ) →
        Cycle (Link (layout_of m bound p) p set graph.trace.events) a →
        (store : ℕ) × IsOvertaken (layout_of m bound p) p set graph.trace.events store }
{}

/// Where each of some nodes has an edge from one of them, so that no order has them, a store outside the set is overtaken.
pub fn nodes_that_wait_for_each_other_give_a_store_that_is_overtaken()
    ensures { (m : Model) (bound : Bounding) (p : Listing) (es : List Entry) (g : RunGraph) (graph : IsRunGraph m bound p es g) →
        IsValid p → HasNoSection p → (set : List (List Bool)) (node : ℕ) (others : List ℕ) →
        ((b : ℕ) → Contains (node ∷ others) b →
        (a : ℕ) × Contains (node ∷ others) a × Link (layout_of m bound p) p set graph.trace.events a b) →
        (store : ℕ) × IsOvertaken (layout_of m bound p) p set graph.trace.events store }
{}

/// An order of the nodes keeps the edges of a failing run's graph and those that a set adds, or a store outside the set is
/// overtaken.
pub fn an_order_is_there_or_a_store_is_overtaken()
    ensures { (m : Model) (bound : Bounding) (p : Listing) (es : List Entry) (g : RunGraph) (graph : IsRunGraph m bound p es g) →
        IsValid p → HasNoSection p → (set : List (List Bool)) →
        ((order : List ℕ) × KeepsEdges (layout_of m bound p) p set g graph.trace.events order) ⊎
        ((store : ℕ) × IsOvertaken (layout_of m bound p) p set graph.trace.events store) }
{}

/// A run of the machine that buffers every store, which fails, has one of the machine that buffers the set alone, which fails
/// alike, or a store outside the set is overtaken.
pub fn a_failing_run_is_carried_or_a_store_is_overtaken()
    ensures { (m : Model) (bound : Bounding) (p : Listing) (es : List Entry) (g : RunGraph) (graph : IsRunGraph m bound p es g) →
        IsValid p → HasNoSection p → (set : List (List Bool)) →
        ((fs : List Entry) × FailAlike (Buffered m bound) (Partial m bound set) p p g.verdict es fs) ⊎
        ((store : ℕ) × IsOvertaken (layout_of m bound p) p set graph.trace.events store) }
{}
