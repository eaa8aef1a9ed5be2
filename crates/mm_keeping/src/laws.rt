//! The laws of what a program's text says of its runs.

ghost use Rattle.std.specs.Prelude.{◌≡◌, ◌≢◌, ℕ, ◌<◌, List, false, true, None, Some, length};
ghost use Rattle.std.specs.List.{All, Contains};
ghost use Rattle.mm_goto.specs.Bounds.{Bounding};
ghost use Rattle.mm_goto.specs.declared.model.Model.{Model};
ghost use Rattle.mm_goto.specs.declared.program.Instr.{Instr};
ghost use Rattle.mm_goto.specs.declared.program.Target.{Target};
ghost use Rattle.mm_goto.specs.declared.spot.Spot.{Spot};
ghost use Rattle.mm_goto.specs.Checks.{targets};
ghost use Rattle.mm_goto.specs.Flow.{IsSuccessor};
ghost use Rattle.mm_goto.specs.Listing.{Listing};
ghost use Rattle.mm_goto.specs.Sites.{Is, is_site, Names, Po, Undrained, MustBefore};
ghost use Rattle.mm_goto.specs.PointsTo.{instr_at};
ghost use Rattle.mm_goto.specs.Sourcelike.{IsSourcelike, wants};
ghost use Rattle.mm_goto.specs.Valid.{IsValid, code_of};
ghost use Rattle.mm_goto.specs.Value.{is_zero, value_of};
ghost use Rattle.mm_sched.specs.declared.entry.Entry.{Entry};
ghost use Rattle.mm_sched.specs.declared.entry.Rules.TheVariants.{Buffered};
ghost use Rattle.mm_sched.specs.Event.{cell_of};
ghost use Rattle.mm_sched.specs.Runs.{run};
ghost use Rattle.mm_sched.specs.State.{State, initial, frame_of};
ghost use Rattle.mm_runkeys.specs.declared.graph.EdgeKind.TheVariants.{Program};
ghost use Rattle.mm_runkeys.specs.Keys.{drains, writes};
ghost use Rattle.mm_rungraph.specs.Edges.{by, IsIssued, IsEdge};
ghost use Rattle.mm_rungraph.specs.RunGraph.{layout_of};
ghost use Rattle.mm_rungraph.specs.Traces.{Trace};
ghost use Rattle.mm_keeping.specs.Executions.{Executes, touched};

/// An executed access is to a cell that it may name, and so is the flush of a store that it made: points-to sets are sound.
pub fn an_access_names_its_cell()
    ensures executed { (m : Model) (bound : Bounding) (p : Listing) (es : List Entry) (run : Trace (Buffered m bound) p es) →
        IsSourcelike p → (k : ℕ) (s : Spot) (x : Executes p run.events k s) (c : ℕ) → touched x.act ≡ Some c → Names p s c }
    ensures flushed { (m : Model) (bound : Bounding) (p : Listing) (es : List Entry) (run : Trace (Buffered m bound) p es) →
        IsSourcelike p → (a f : ℕ) (s : Spot) → Executes p run.events a s → IsIssued (layout_of m bound p) run.events a f →
        (c : ℕ) → by writes run.events f ≡ Some c → Names p s c }
{}

/// Control goes on from an executed instruction to the one that its thread executes next.
pub fn executed_neighbours_are_successors()
    ensures { (m : Model) (bound : Bounding) (p : Listing) (es : List Entry) (run : Trace (Buffered m bound) p es) → IsValid p →
        (a b : ℕ) (s t : Spot) → Executes p run.events a s → Executes p run.events b t →
        IsEdge (layout_of m bound p) run.events Program a b →
        (s.thread ≡ t.thread) × IsSuccessor (code_of p s.thread) s.index t.index }
{}

/// A thread's executed instructions are in program order; and on a path on which a store may stay pending where no drained
/// instruction is executed between.
pub fn later_executions_are_in_program_order()
    ensures order { (m : Model) (bound : Bounding) (p : Listing) (es : List Entry) (run : Trace (Buffered m bound) p es) → IsValid p →
        (a b : ℕ) (s t : Spot) → Executes p run.events a s → Executes p run.events b t → s.thread ≡ t.thread → a < b → Po p s t }
    ensures undrained { (m : Model) (bound : Bounding) (p : Listing) (es : List Entry) (run : Trace (Buffered m bound) p es) → IsValid p →
        (a b : ℕ) (s t : Spot) → Executes p run.events a s → Executes p run.events b t → s.thread ≡ t.thread → a < b →
        ((j : ℕ) → a < j → j < b → by drains run.events j ≢ Some s.thread) → Undrained p s t }
{}

/// Where main's starts and joins put an instruction before a site, each execution of the instruction comes before each
/// execution of the site, and so does the flush of a store that it made.
pub fn what_must_be_before_comes_before()
    ensures executed { (m : Model) (bound : Bounding) (p : Listing) (es : List Entry) (run : Trace (Buffered m bound) p es) →
        IsSourcelike p → (a b : ℕ) (s t : Spot) → MustBefore p s t → Is p t (λ it. is_site it ≡ true) →
        Executes p run.events a s → Executes p run.events b t → a < b }
    ensures flushed { (m : Model) (bound : Bounding) (p : Listing) (es : List Entry) (run : Trace (Buffered m bound) p es) →
        IsSourcelike p → (a b f : ℕ) (s t : Spot) → MustBefore p s t → Is p t (λ it. is_site it ≡ true) →
        Executes p run.events a s → Executes p run.events b t → IsIssued (layout_of m bound p) run.events a f → f < b }
{}

/// Where a run with store buffers has come to and nothing has failed, each check holds that the instruction wants at which a thread
/// stands: a divisor is not 0, an index is in range, a pointer that is followed is not null. So each target of the instruction has a
/// cell, which the access may name.
pub fn a_guarded_instruction_finds_its_checks()
    ensures checks { (m : Model) (bound : Bounding) (p : Listing) (es : List Entry) (last : State) → IsSourcelike p →
        run (Buffered m bound) p (initial p) es ≡ Some last → last.verdict ≡ None → (t : ℕ) (i : Instr) →
        instr_at p t (frame_of last t).place ≡ Some i → All (λ check. is_zero (value_of check (frame_of last t).locals) ≡ false) (wants i) }
    ensures cells { (m : Model) (bound : Bounding) (p : Listing) (es : List Entry) (last : State) → IsSourcelike p →
        run (Buffered m bound) p (initial p) es ≡ Some last → last.verdict ≡ None → (t : ℕ) (i : Instr) →
        instr_at p t (frame_of last t).place ≡ Some i → (to : Target) → Contains (targets i) to →
        (c : ℕ) × (c < length p.cells) × (cell_of (length p.cells) (frame_of last t).locals to ≡ Some c)
        × Names p (record { thread = t; index = (frame_of last t).place }) c }
{}
