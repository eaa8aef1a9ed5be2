//! The laws of paths and cycles.

pub mod examples;

ghost use Rattle.std.specs.Prelude.{◌≡◌, ◌⊎◌, ℕ, Bool, List};
ghost use Rattle.mm_goto.specs.Bounds.{Bounding};
ghost use Rattle.mm_goto.specs.declared.model.Model.{Model};
ghost use Rattle.mm_goto.specs.declared.shape.Head.{Head};
ghost use Rattle.mm_goto.specs.declared.shape.Shape.{Shape};
ghost use Rattle.mm_goto.specs.declared.spot.Spot.{Spot};
ghost use Rattle.mm_goto.specs.DelayCycles.{Edge};
ghost use Rattle.mm_goto.specs.Listing.{Listing};
ghost use Rattle.mm_goto.specs.Sourcelike.{IsSourcelike};
ghost use Rattle.mm_delay.specs.Plans.{IsPlanOf};
ghost use Rattle.mm_sched.specs.declared.entry.Entry.{Entry};
ghost use Rattle.mm_sched.specs.declared.entry.Rules.TheVariants.{Buffered, Partial};
ghost use Rattle.mm_sched.specs.Runs.{FailAlike};
ghost use Rattle.mm_rungraph.specs.Edges.{IsEdge};
ghost use Rattle.mm_rungraph.specs.declared.graph.RunGraph.{RunGraph};
ghost use Rattle.mm_rungraph.specs.RunGraph.{layout_of, IsRunGraph};
ghost use Rattle.mm_rungraph.specs.Traces.{Trace};
ghost use Rattle.mm_reorder.specs.Cycles.{Cycle, Link};
ghost use Rattle.mm_reorder.specs.Orders.{KeepsEdges};
ghost use Rattle.mm_bridge.specs.Steps.{IsOf, IsOfNone, Path, IsIssue, Lacks, HasDelayed};

/// Where a path of a run's edges leads from a step of a site to a step of a site and passes only steps of no site, program
/// order, communication or the order by mutexes, starts and joins leads from the one site to the other; or the path is the
/// edge from a store to its flush.
pub fn a_path_between_sites_is_an_edge_of_the_text()
    ensures { (m : Model) (bound : Bounding) (p : Listing) (es : List Entry) (run : Trace (Buffered m bound) p es) → IsSourcelike p →
        (a b : ℕ) (s t : Spot) → IsOf (layout_of m bound p) p run.events a s → IsOf (layout_of m bound p) p run.events b t →
        (path : Path (IsEdge (layout_of m bound p) run.events) (IsOfNone (layout_of m bound p) p run.events) b a) →
        Edge p s t ⊎ IsIssue path }
{}

/// A cycle of a run's edges and those that a set of stores adds gives a store outside the set that has a delay cycle. So there
/// is no such cycle where the set has each store with a delay cycle.
pub fn a_cycle_gives_a_delay_cycle()
    ensures delayed { (m : Model) (bound : Bounding) (p : Listing) (es : List Entry) (run : Trace (Buffered m bound) p es) →
        IsSourcelike p → (set : List (List Bool)) (a : ℕ) → Cycle (Link (layout_of m bound p) p set run.events) a → Lacks p m set }
    ensures none { (m : Model) (bound : Bounding) (p : Listing) (es : List Entry) (run : Trace (Buffered m bound) p es) →
        IsSourcelike p → (set : List (List Bool)) → HasDelayed p m set →
        (a : ℕ) → ¬ (Cycle (Link (layout_of m bound p) p set run.events) a) }
{}

/// The set of a plan has each store that has a delay cycle.
pub fn a_plan_has_each_delayed_store()
    ensures { (p : Listing) (m : Model) (bound : Bounding) (shape : Shape) (head : Head) → IsPlanOf p m bound shape head → HasDelayed p m shape.buffered }
{}

/// Where the set has each store with a delay cycle, some order of the steps of a failing run keeps the edges of its run graph and those
/// that the set adds, and there is a run of the machine that buffers the set alone, which fails alike.
pub fn a_failing_run_is_carried()
    ensures order { (m : Model) (bound : Bounding) (p : Listing) (es : List Entry) (g : RunGraph) (graph : IsRunGraph m bound p es g) →
        IsSourcelike p → (set : List (List Bool)) → HasDelayed p m set →
        (order : List ℕ) × KeepsEdges (layout_of m bound p) p set g graph.trace.events order }
    ensures run { (m : Model) (bound : Bounding) (p : Listing) (es : List Entry) (g : RunGraph) → IsRunGraph m bound p es g →
        IsSourcelike p → (set : List (List Bool)) → HasDelayed p m set →
        (fs : List Entry) × FailAlike (Buffered m bound) (Partial m bound set) p p g.verdict es fs }
{}
