ghost use Rattle.std.specs.Prelude.{◌≡◌, ◌↔◌, ◌<◌, length, IsTrue};
ghost use Rattle.mm_cycles.specs.Links.{UnsafeIn, AreUnsafe, overtakes, same_only};

use mm_goto::Model;
use mm_graph::{Graph, Site, SiteKind};

fn overtakes(model: Model, kind: SiteKind) -> bool
    ensures { result ≡ overtakes model kind }
{
    match kind {
        SiteKind::Load => true,
        SiteKind::Store => model == Model::Pso,
        SiteKind::Update | SiteKind::Lock | SiteKind::Unlock | SiteKind::Start | SiteKind::Join =>
            false,
    }
}

fn same_only(a: &[u32], b: &[u32]) -> bool
    ensures { result ≡ same_only a.now b.now }
{
    match (a, b) {
        ([c], [d]) => c == d,
        _ => false,
    }
}

fn are_unsafe(model: Model, store: &Site, later: &Site) -> bool
    ensures { IsTrue result ↔ AreUnsafe model store.now later.now }
{
    store.kind == SiteKind::Store
        && overtakes(model, later.kind)
        && !same_only(store.cells.items(), later.cells.items())
}

/// Whether the later access may overtake the store.
pub fn is_unsafe(graph: &Graph, model: Model, store: u32, later: u32) -> bool
    requires store { store < length graph.now.sites }
    requires later { later < length graph.now.sites }
    ensures { IsTrue result ↔ UnsafeIn graph.now model store later }
{
    graph.undrained.get(store, later)
        && are_unsafe(
            model,
            &graph.sites()[store as usize],
            &graph.sites()[later as usize],
        )
}
