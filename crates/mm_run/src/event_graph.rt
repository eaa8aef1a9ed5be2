ghost use Rattle.std.specs.Prelude.{IfErr, IfOk, string_bytes};
ghost use Rattle.mm_goto.specs.Listing.{Listing};
ghost use Rattle.mm_graph.specs.Graphs.{IsGraphOf};
ghost use Rattle.mm_graph.specs.Refusals.{IsRefused};
ghost use Rattle.mm_run.specs.Answer.{IsTooLargeFor};

use crate::answer::{Answer, refused};
use mm_goto::{At, NoMemory, Program};
use mm_graph::{Graph, GraphFault, graph, has_graph};
use mm_points::points_to;
use std::alloc::Global;

/// The event graph of the program, or why it has none, which is found before its points-to sets are made.
pub fn event_graph(alloc: Global, program: &Program) -> Result<Graph, GraphFault>
    ensures graph { IfOk result (IsGraphOf program.now) }
    ensures refused { IfErr result (IsRefused program.now) }
{
    has_graph(alloc, program)?;
    let points = points_to(alloc, program)?;
    graph(alloc, program, &points)
}

/// The answer where a program is too large for an event graph.
pub fn too_large(alloc: Global, fault: GraphFault) -> Result<Answer, NoMemory>
    ensures { IfOk result (λ answer. (p : Listing) → IsRefused p fault → IsTooLargeFor p answer.status (string_bytes answer.output)) }
{
    match fault {
        GraphFault::TooManySites => refused(alloc, At::start(), "too many sites"),
        GraphFault::TooManyCells => refused(alloc, At::start(), "too many shared cells"),
        GraphFault::NoMemory => Err(NoMemory),
    }
}
