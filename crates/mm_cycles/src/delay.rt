ghost use Rattle.std.specs.Prelude.{◌↔◌, ◌<◌, length, IfOk, IfSome, IfNone, IsTrue};
ghost use Rattle.mm_goto.specs.DelayCycles.{IsDelayCycle, HasDelayCycle, IsCycleOf};
ghost use Rattle.mm_goto.specs.Listing.{Listing};
ghost use Rattle.mm_graph.specs.Graphs.{IsGraphOf};
ghost use Rattle.mm_cycles.specs.Links.{IsStoreSite};
ghost use Rattle.mm_cycles.specs.Walks.{walked};

use crate::cycles::{first_cycle, is_cycle};
use crate::walk::Walk;
use mm_goto::{Model, NoMemory};
use mm_graph::Graph;
use std::alloc::Global;

/// The store's cycle: with the least later access for which there is one, then the least access that meets it, then the fewest
/// edges back, then the least sites. There is none exactly where the store has no delay cycle. `store` is the number of a site
/// of kind Store.
pub fn find_cycle(
    alloc: Global,
    graph: &Graph,
    model: Model,
    store: u32,
) -> Result<Option<Walk>, NoMemory>
    requires { IsStoreSite graph.now store }
    ensures first { IfOk result (λ found. IfSome found (λ walk. (p : Listing) → IsGraphOf p graph.now → IsCycleOf p model store (walked walk))) }
    ensures none { IfOk result (λ found. IfNone found ((p : Listing) → IsGraphOf p graph.now → ¬ (HasDelayCycle p model store))) }
{
    first_cycle(alloc, graph, model, store)
}

/// Whether the walk is a delay cycle of its store, whatever its numbers.
pub fn check_walk(graph: &Graph, model: Model, walk: &Walk) -> bool
    ensures { (p : Listing) → IsGraphOf p graph.now → IsTrue result ↔ IsDelayCycle p model (walked walk.now) }
{
    is_cycle(graph, model, walk)
}
