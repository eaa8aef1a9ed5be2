//! Laws on run graphs.

ghost use Rattle.std.specs.Prelude.{◌≡◌, ◌+◌, ◌<◌, ℕ, ℤ, List, [], length, slice_get, take, Some, is_some, Contains};
ghost use Rattle.mm_goto.specs.Bounds.{Bounding, bound_of};
ghost use Rattle.mm_goto.specs.declared.model.Model.{Model};
ghost use Rattle.mm_goto.specs.Listing.{Listing};
ghost use Rattle.mm_goto.specs.Valid.{IsValid};
ghost use Rattle.mm_sched.specs.declared.entry.Act.TheVariants.{Loads, Pushes};
ghost use Rattle.mm_sched.specs.declared.entry.Entry.{Entry};
ghost use Rattle.mm_sched.specs.declared.entry.Event.TheVariants.{Does, Flushes};
ghost use Rattle.mm_sched.specs.declared.entry.Rules.TheVariants.{Buffered};
ghost use Rattle.mm_sched.specs.Buffer.{newest};
ghost use Rattle.mm_sched.specs.State.{initial, pending_of};
ghost use Rattle.mm_runkeys.specs.declared.graph.RunEdge.{RunEdge};
ghost use Rattle.mm_rungraph.specs.declared.graph.RunGraph.{RunGraph};
ghost use Rattle.mm_rungraph.specs.Edges.{by, IsNth, IsIssued};
ghost use Rattle.mm_runkeys.specs.Keys.{runs, pushes, pops, is_own};
ghost use Rattle.mm_rungraph.specs.RunGraph.{layout_of, IsRunGraph};
ghost use Rattle.mm_rungraph.specs.Traces.{Trace, after_all};

/// Each edge leads from a step of the run to a later one.
pub fn each_edge_leads_forward()
    ensures { (m : Model) (bound : Bounding) (p : Listing) (es : List Entry) (g : RunGraph) → IsValid p → IsRunGraph m bound p es g →
        (e : RunEdge) → Contains g.edges e → (e.from < e.to) × (e.to < length g.nodes) }
{}

/// At the end of the run nothing is pending.
pub fn nothing_is_pending_at_the_end()
    ensures { (m : Model) (bound : Bounding) (p : Listing) (es : List Entry) (g : RunGraph) → (graph : IsRunGraph m bound p es g) →
        (t : ℕ) → pending_of (after_all (initial p) graph.trace.events) t ≡ [] }
{}

/// An edge of issue leads from a store to the flush that brings it to memory: first in, first out.
pub fn a_store_is_issued_to_its_flush()
    ensures { (m : Model) (bound : Bounding) (p : Listing) (es : List Entry) (run : Trace (Buffered m bound) p es) → IsValid p →
        (a b : ℕ) → IsIssued (layout_of m bound p) run.events a b →
        (t : ℕ) × (c : ℕ) × (v : ℤ) × (slice_get run.events a ≡ Some (Does t (Pushes c v))) × (slice_get run.events b ≡ Some (Flushes t c v)) }
{}

/// A store comes before its flush, and the flush that makes room before the store that takes it: to ask for that order in
/// what is issued and what has room leaves out nothing.
pub fn stores_and_flushes_come_in_order()
    ensures issue { (m : Model) (bound : Bounding) (p : Listing) (es : List Entry) (run : Trace (Buffered m bound) p es) → IsValid p →
        (q j a b : ℕ) → IsNth (pushes (layout_of m bound p)) run.events q j a → IsNth (pops (layout_of m bound p)) run.events q j b → a < b }
    ensures room { (m : Model) (bound : Bounding) (p : Listing) (es : List Entry) (run : Trace (Buffered m bound) p es) → IsValid p →
        (t q j a b : ℕ) → by runs run.events b ≡ Some t → IsNth (pops (layout_of m bound p)) run.events q j a →
        IsNth (pushes (layout_of m bound p)) run.events q (j + bound_of bound t) b → a < b }
{}

/// A load takes its own thread's store exactly where one to the cell is pending.
pub fn a_load_takes_its_own_pending_store()
    ensures { (m : Model) (bound : Bounding) (p : Listing) (es : List Entry) (run : Trace (Buffered m bound) p es) → IsValid p →
        (k t l c : ℕ) (v : ℤ) → slice_get run.events k ≡ Some (Does t (Loads l c v)) →
        is_own (layout_of m bound p) (take k run.events) (Does t (Loads l c v)) ≡ is_some (newest (pending_of (after_all (initial p) (take k run.events)) t) c) }
{}
