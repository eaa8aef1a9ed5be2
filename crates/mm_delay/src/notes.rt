ghost use Rattle.std.specs.Prelude.{◌≡◌, ◌++◌, ℕ, ◌<◌, length, IfOk, IfSome, IfNone, OnOk};
ghost use Rattle.mm_goto.specs.DelayCycles.{HasDelayCycle};
ghost use Rattle.mm_goto.specs.Listing.{Listing};
ghost use Rattle.mm_graph.specs.Graphs.{IsGraphOf};
ghost use Rattle.mm_cycles.specs.Links.{IsStoreSite};
ghost use Rattle.mm_cycles.specs.Walks.{walked, sites_on};
ghost use Rattle.mm_delay.specs.Plans.{IsNoteOf, AreNotes, IsHeadOf};

use mm_cycles::{Steps, Walk, find_cycle};
use mm_goto::{Bound, Head, List, Model, NoMemory, Note};
use mm_graph::{Graph, SiteKind};
use std::alloc::Global;

/// Writes the sites of the way back.
fn put_steps(steps: &Steps, out: &mut Vec<u32>) -> Result<(), NoMemory>
    ensures { OnOk result (out.new.items ≡ out.old.items ++ sites_on steps.now) }
{
    match steps {
        Steps::Back => Ok(()),
        Steps::Go(n, rest) => {
            out.push(*n)?;
            put_steps(rest.get(), out)
        }
    }
}

/// The sites of the walk.
fn sites_of(alloc: Global, walk: &Walk) -> Result<List<u32>, NoMemory>
    ensures { IfOk result (λ sites. sites ≡ walked walk.now) }
{
    let mut out = Vec::new(alloc);
    out.push(walk.store)?;
    out.push(walk.later)?;
    put_steps(&walk.rest, &mut out)?;
    Ok(List::new(out))
}

/// The note of the store, where it has a delay cycle.
fn note_of(alloc: Global, graph: &Graph, model: Model, store: u32) -> Result<Option<Note>, NoMemory>
    requires { IsStoreSite graph.now store }
    ensures found { IfOk result (λ found. IfSome found (λ note. (p : Listing) → IsGraphOf p graph.now → IsNoteOf p model store note)) }
    ensures none { IfOk result (λ found. IfNone found ((p : Listing) → IsGraphOf p graph.now → ¬ (HasDelayCycle p model store))) }
{
    match find_cycle(alloc, graph, model, store)? {
        Some(walk) => {
            let site = &graph.sites()[store as usize];
            Ok(Some(Note {
                site: store,
                thread: site.thread,
                at: site.at,
                cycle: sites_of(alloc, &walk)?,
            }))
        }
        None => Ok(None),
    }
}

/// The notes of the stores that have a delay cycle, in order.
pub fn notes_of(alloc: Global, graph: &Graph, model: Model) -> Result<Vec<Note>, NoMemory>
    ensures { IfOk result (λ notes. (p : Listing) → IsGraphOf p graph.now → AreNotes p model notes.items) }
{
    let mut notes = Vec::new(alloc);
    'sites: for s in 0..graph.sites().len() as u32 {
        if graph.sites()[s as usize].kind == SiteKind::Store {
            if let Some(note) = note_of(alloc, graph, model, s)? {
                notes.push(note)?;
            }
        }
    }
    Ok(notes)
}

/// The head of the program's plan, over its graph: a note for each store that has a delay cycle, in order of the sites.
pub fn head(alloc: Global, graph: &Graph, model: Model, bound: Bound) -> Result<Head, NoMemory>
    ensures { IfOk result (λ head. (p : Listing) → IsGraphOf p graph.now → IsHeadOf p model bound head) }
{
    let notes = notes_of(alloc, graph, model)?;
    Ok(Head {
        model,
        bound,
        notes: List::new(notes),
    })
}
