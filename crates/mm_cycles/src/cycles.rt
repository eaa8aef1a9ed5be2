ghost use Rattle.std.specs.Prelude.{◌<◌, ◌↔◌, ◌∷◌, length, IfOk, IfSome, IfNone, IsTrue};
ghost use Rattle.mm_goto.specs.DelayCycles.{IsCycle, IsCycleOf, HasDelayCycle};
ghost use Rattle.mm_goto.specs.Listing.{Listing};
ghost use Rattle.mm_goto.specs.Paths.{IsPath};
ghost use Rattle.mm_graph.specs.Graphs.{ComIn, EdgeIn, IsGraphOf};
ghost use Rattle.mm_cycles.specs.Links.{UnsafeIn};
ghost use Rattle.mm_cycles.specs.Walks.{walked, sites_on};

use crate::unsafe_pairs::is_unsafe;
use crate::walk::{Steps, Walk, steps_by};
use mm_goto::{Model, NoMemory};
use mm_graph::Graph;
use std::alloc::Global;

/// The first cycle of the store over the graph's tables: one search back from it serves every later access.
pub fn first_cycle(
    alloc: Global,
    graph: &Graph,
    model: Model,
    store: u32,
) -> Result<Option<Walk>, NoMemory>
    requires { store < length graph.now.sites }
    ensures first { IfOk result (λ found. IfSome found (λ walk. (p : Listing) → IsGraphOf p graph.now → IsCycleOf p model store (walked walk))) }
    ensures none { IfOk result (λ found. IfNone found ((p : Listing) → IsGraphOf p graph.now → ¬ (HasDelayCycle p model store))) }
{
    let levels = graph.edges.levels(alloc, &graph.back, store)?;
    'later: for later in 0..graph.sites().len() as u32 {
        if is_unsafe(graph, model, store, later) {
            if let Some(meets) = graph.com.first_in(later, levels.all()) {
                let path = graph.edges.walk(alloc, &levels, meets)?;
                let rest = steps_by(alloc, path.as_slice())?;
                return Ok(Some(Walk { store, later, rest }));
            }
        }
    }
    Ok(None)
}

/// Whether the walk is a cycle over the graph's tables.
pub fn is_cycle(graph: &Graph, model: Model, walk: &Walk) -> bool
    ensures { IsTrue result ↔ IsCycle (UnsafeIn graph.now model) (ComIn graph.now) (EdgeIn graph.now) (walked walk.now) }
{
    match &walk.rest {
        Steps::Back => false,
        Steps::Go(meets, rest) => {
            let sites = graph.sites().len() as u32;
            if sites <= walk.store || sites <= walk.later || sites <= *meets {
                return false;
            }
            if !is_unsafe(graph, model, walk.store, walk.later)
                || !graph.com.get(walk.later, *meets)
            {
                return false;
            }
            leads_back(graph, *meets, rest.get(), walk.store)
        }
    }
}

/// Whether the steps lead from a site back to the store.
fn leads_back(graph: &Graph, here: u32, rest: &Steps, store: u32) -> bool
    requires here { here < length graph.now.sites }
    requires store { store < length graph.now.sites }
    ensures { IsTrue result ↔ IsPath (EdgeIn graph.now) here (here ∷ sites_on rest.now) store }
{
    match rest {
        Steps::Back => graph.edges.get(here, store),
        Steps::Go(next, rest) => {
            if graph.sites().len() as u32 <= *next || !graph.edges.get(here, *next) {
                return false;
            }
            leads_back(graph, *next, rest.get(), store)
        }
    }
}
