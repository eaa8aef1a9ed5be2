//! Whether a failing run is carried to the machine that buffers just the stores of the plan.
ghost use Rattle.std.specs.Prelude.{◌≡◌, ◌⊎◌, ℕ, List, IfOk, IfSome};
ghost use Rattle.mm_goto.specs.DelayCycles.{Edge};
ghost use Rattle.mm_goto.specs.Sourcelike.{IsSourcelike};
ghost use Rattle.mm_goto.specs.declared.spot.Spot.{Spot};
ghost use Rattle.mm_graph.specs.Graphs.{IsGraphOf};
ghost use Rattle.mm_sched.specs.Runs.{FailAlike};
ghost use Rattle.mm_sched.specs.ScheduleText.{entries_of};
ghost use Rattle.mm_sched.specs.declared.entry.Entry.{Entry};
ghost use Rattle.mm_sched.specs.declared.entry.Rules.TheVariants.{Buffered, Partial};
ghost use Rattle.mm_rungraph.specs.Edges.{IsEdge};
ghost use Rattle.mm_rungraph.specs.RunGraph.{layout_of, IsRunGraph};
ghost use Rattle.mm_reorder.specs.Cycles.{Cycle, Link};
ghost use Rattle.mm_bridge.specs.Steps.{IsOf, IsOfNone, IsIssue, Path};

use mm_bridge::laws::{
    a_cycle_gives_a_delay_cycle, a_failing_run_is_carried,
    a_path_between_sites_is_an_edge_of_the_text, a_plan_has_each_delayed_store,
};
use mm_delay::plan;
use mm_goto::{Bound, Model, NoMemory, Program, Shape};
use mm_graph::{Graph, graph};
use mm_points::points_to;
use mm_rungraph::RunGraph;
use mm_sched::Schedule;
use std::alloc::Global;
use std::io;

/// The plan's shape. Each path of the run's graph between sites is an edge of the text, no cycle stands in the way of an order, and there
/// is a run that buffers just the stores of the shape, which fails alike.
fn planned(
    alloc: Global,
    program: &Program,
    events: &Graph,
    model: Model,
    bound: Bound,
    run: &RunGraph,
    schedule: &Schedule,
) -> Result<Shape, NoMemory>
    requires source { IsSourcelike program.now }
    requires graph { IsGraphOf program.now events.now }
    requires run { IsRunGraph model bound program.now (entries_of schedule.now) run.now }
    ensures paths { (graph : IsRunGraph model bound program.now (entries_of schedule.now) run.now) → (a b : ℕ) (s t : Spot) →
        IsOf (layout_of model bound program.now) program.now graph.trace.events a s → IsOf (layout_of model bound program.now) program.now graph.trace.events b t →
        (path : Path (IsEdge (layout_of model bound program.now) graph.trace.events) (IsOfNone (layout_of model bound program.now) program.now graph.trace.events) b a) →
        Edge program.now s t ⊎ IsIssue path }
    ensures cycles { IfOk result (λ shape. (graph : IsRunGraph model bound program.now (entries_of schedule.now) run.now) → (a : ℕ) →
        ¬ (Cycle (Link (layout_of model bound program.now) program.now shape.buffered graph.trace.events) a)) }
    ensures alike { IfOk result (λ shape. (fs : List Entry) ×
        FailAlike (Buffered model bound) (Partial model bound shape.buffered) program.now program.now run.now.verdict (entries_of schedule.now) fs) }
{
    a_path_between_sites_is_an_edge_of_the_text();
    let (shape, _) = plan(alloc, program, events, model, bound)?;
    a_cycle_gives_a_delay_cycle();
    a_plan_has_each_delayed_store();
    a_failing_run_is_carried();
    Ok(shape)
}

/// The shape of the plan, where the program has an event graph.
fn carried(
    alloc: Global,
    program: &Program,
    model: Model,
    bound: Bound,
    run: &RunGraph,
    schedule: &Schedule,
) -> Option<Shape>
    requires source { IsSourcelike program.now }
    requires run { IsRunGraph model bound program.now (entries_of schedule.now) run.now }
    ensures { IfSome result (λ shape. (fs : List Entry) ×
        FailAlike (Buffered model bound) (Partial model bound shape.buffered) program.now program.now run.now.verdict (entries_of schedule.now) fs) }
{
    let points = match points_to(alloc, program) {
        Ok(points) => points,
        Err(_) => return None,
    };
    let events = match graph(alloc, program, &points) {
        Ok(events) => events,
        Err(_) => return None,
    };
    match planned(alloc, program, &events, model, bound, run, schedule) {
        Ok(shape) => Some(shape),
        Err(_) => None,
    }
}

/// Prints the assertion that the run fails, and that it is carried.
pub fn show_carried<R: Print + AllocGlobal>(
    rt: &R,
    program: &Program,
    model: Model,
    bound: Bound,
    run: &RunGraph,
    schedule: &Schedule,
) -> io::Result<()>
    requires source { IsSourcelike program.now }
    requires run { IsRunGraph model bound program.now (entries_of schedule.now) run.now }
{
    println!(rt; "failed {}", run.verdict)?;
    match carried(rt.alloc(), program, model, bound, run, schedule) {
        Some(_) => println!(rt; "carried"),
        None => println!(rt; "too large, or no memory"),
    }
}
