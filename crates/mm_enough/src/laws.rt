//! What the plan's buffers have to do with those of every store.

ghost use Rattle.std.specs.Prelude.{◌↔◌, ◌≡◌, ◌<◌, ℕ, Bool, List, Contains, false, None, Some, length};
ghost use Rattle.std.specs.List.{All};
ghost use Rattle.mm_goto.specs.Bounds.{Bounding, IsBound};
ghost use Rattle.mm_goto.specs.declared.model.Model.{Model};
ghost use Rattle.mm_goto.specs.declared.program.Instr.{Instr};
ghost use Rattle.mm_goto.specs.declared.program.Target.{Target};
ghost use Rattle.mm_goto.specs.declared.shape.Head.{Head};
ghost use Rattle.mm_goto.specs.declared.shape.Shape.{Shape};
ghost use Rattle.mm_goto.specs.Checks.{targets};
ghost use Rattle.mm_goto.specs.Listing.{Listing};
ghost use Rattle.mm_goto.specs.PointsTo.{instr_at};
ghost use Rattle.mm_goto.specs.Sites.{Names};
ghost use Rattle.mm_goto.specs.Sourcelike.{IsSourcelike, wants};
ghost use Rattle.mm_goto.specs.Valid.{IsValid};
ghost use Rattle.mm_goto.specs.Value.{is_zero, value_of};
ghost use Rattle.mm_delay.specs.Plans.{IsPlanOf};
ghost use Rattle.mm_sched.specs.declared.entry.Entry.{Entry};
ghost use Rattle.mm_sched.specs.declared.entry.Rules.TheVariants.{Buffered, Partial};
ghost use Rattle.mm_sched.specs.Event.{cell_of};
ghost use Rattle.mm_sched.specs.Runs.{run, Fails, FailAlike, Reaches};
ghost use Rattle.mm_sched.specs.State.{State, initial, frame_of};
ghost use Rattle.mm_sched.specs.Sections.{HasNoSection};
ghost use Rattle.mm_rungraph.specs.declared.graph.RunGraph.{RunGraph};
ghost use Rattle.mm_rungraph.specs.RunGraph.{IsRunGraph};

/// Every failing run with store buffers of a program without atomic sections has a run graph.
pub fn a_failing_run_has_a_graph()
    ensures { (m : Model) (bound : Bounding) (p : Listing) (n : ℕ) (es : List Entry) → IsValid p → HasNoSection p →
        Fails (Buffered m bound) p n es → (g : RunGraph) × IsRunGraph m bound p es g × (g.verdict ≡ n) }
{}

/// With store buffers for every store a flattened source fails just the assertions that it fails where the stores of a plan alone are
/// buffered; and a failing schedule of the one machine has one of the other that fails alike.
pub fn the_buffers_of_a_plan_are_enough()
    ensures same { (m : Model) (bound : Bounding) (p : Listing) (shape : Shape) (head : Head) → IsSourcelike p → IsBound bound →
        IsPlanOf p m bound shape head → (n : ℕ) → Reaches (Buffered m bound) p n ↔ Reaches (Partial m bound shape.buffered) p n }
    ensures found { (m : Model) (bound : Bounding) (p : Listing) (shape : Shape) (head : Head) → IsSourcelike p → IsPlanOf p m bound shape head →
        (n : ℕ) (es : List Entry) → Fails (Buffered m bound) p n es →
        (fs : List Entry) × FailAlike (Buffered m bound) (Partial m bound shape.buffered) p p n es fs }
{}

/// With partial buffers too, wherever a run has come to and nothing has failed, each check holds that the instruction wants at which a
/// thread stands, and each target of it has a cell, which the access may name.
pub fn a_guarded_instruction_finds_its_checks()
    ensures checks { (m : Model) (bound : Bounding) (set : List (List Bool)) (p : Listing) (es : List Entry) (last : State) → IsSourcelike p →
        IsBound bound → run (Partial m bound set) p (initial p) es ≡ Some last → last.verdict ≡ None → (t : ℕ) (i : Instr) →
        instr_at p t (frame_of last t).place ≡ Some i → All (λ check. is_zero (value_of check (frame_of last t).locals) ≡ false) (wants i) }
    ensures cells { (m : Model) (bound : Bounding) (set : List (List Bool)) (p : Listing) (es : List Entry) (last : State) → IsSourcelike p →
        IsBound bound → run (Partial m bound set) p (initial p) es ≡ Some last → last.verdict ≡ None → (t : ℕ) (i : Instr) →
        instr_at p t (frame_of last t).place ≡ Some i → (to : Target) → Contains (targets i) to →
        (c : ℕ) × (c < length p.cells) × (cell_of (length p.cells) (frame_of last t).locals to ≡ Some c)
        × Names p (record { thread = t; index = (frame_of last t).place }) c }
{}
