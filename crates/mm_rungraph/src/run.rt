//! The run graph of a schedule.

ghost use Rattle.std.specs.Prelude.{◌≡◌, ◌≤◌, length, MatchResult};
ghost use Rattle.mm_sched.specs.declared.entry.Rules.TheVariants.{Buffered};
ghost use Rattle.mm_sched.specs.declared.schedule.TheConstants.{MAX_ENTRIES};
ghost use Rattle.mm_sched.specs.ScheduleText.{entries_of};
ghost use Rattle.mm_sched.specs.Sections.{HasNoSection};
ghost use Rattle.mm_rungraph.specs.RunGraph.{layout_of, IsRunGraph, IsFault};

use crate::entries::entries_in;
use crate::graph::{RunFault, RunGraph};
use crate::walk::Walk;
use mm_goto::{Bound, List, Model, Program};
use mm_runkeys::Layout;
use mm_sched::Schedule;
use std::alloc::Global;

fn layout_of(program: &Program, model: Model, bound: Bound) -> Layout
    ensures { result ≡ layout_of model bound program.now }
{
    let threads = program.threads().len() as u32;
    let cells = program.cells().len() as u32;
    Layout {
        model,
        cells,
        threads,
        bound,
    }
}

/// The run of the schedule on the machine with store buffers, extended by the flushes of what is pending at its end, and what
/// each of its steps waits for.
pub fn run_graph(
    alloc: Global,
    program: &Program,
    model: Model,
    bound: Bound,
    schedule: &Schedule,
) -> Result<RunGraph, RunFault>
    requires sections { HasNoSection program.now }
    requires few { length (entries_of schedule.now) ≤ MAX_ENTRIES }
    ensures { MatchResult result (IsRunGraph model bound program.now (entries_of schedule.now)) (IsFault (Buffered model bound) program.now (entries_of schedule.now)) }
{
    let layout = layout_of(program, model, bound);
    let mut entries = entries_in(alloc, schedule.lines.items())?;
    let mut walk = Walk::new(alloc, model, bound, program, &layout)?;
    let verdict = walk.extend(alloc, model, bound, program, &layout, &mut entries)?;
    let (nodes, edges) = walk.given(alloc)?;
    Ok(RunGraph {
        nodes: List::new(nodes),
        entries: List::new(entries),
        edges: List::new(edges),
        verdict,
    })
}
