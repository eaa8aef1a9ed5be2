ghost use Rattle.std.specs.Prelude.{◌≡◌, ◌↔◌, ◌⊎◌, ◌≤◌, ℕ, IfOk, IsTrue, length};
ghost use Rattle.mm_bits.specs.Words.{Has};
ghost use Rattle.mm_goto.specs.DelayCycles.{HasDelayCycle};
ghost use Rattle.mm_goto.specs.Shapes.{AreOfOneName, Fits, IsAddressed, flag_at};
ghost use Rattle.mm_graph.specs.Graphs.{IsGraphOf};
ghost use Rattle.mm_delay.specs.Plans.{IsDelayed, IsPlanOf};
ghost use Rattle.mm_delay.specs.reading.Addressed.{AreBelow};
ghost use Rattle.mm_delay.specs.reading.Sets.{Raised};

use crate::addressed::addressed;
use crate::flags::flags;
use crate::flush_points::points;
use crate::moved::moved;
use crate::notes::notes_of;
use crate::sets::{cells_of, noted, sites_at, threads_of};
use mm_bits::Numbers;
use mm_goto::{Bound, Head, List, Model, NoMemory, Program, Shape};
use mm_graph::Graph;
use std::alloc::Global;

/// The cells that move: those whose address stands in the program, those to which a buffered store may be, and with an element the
/// whole array.
fn moving(alloc: Global, program: &Program, cells: &Numbers) -> Result<Vec<bool>, NoMemory>
    requires few { length program.now.cells ≤ 1024 }
    requires below { AreBelow (IsAddressed program.now) }
    ensures size { IfOk result (λ moved. length moved.items ≡ length program.now.cells) }
    ensures raised { IfOk result (λ moved. (c : ℕ) → Raised moved.items c ↔ ((d : ℕ) × AreOfOneName program.now c d × (IsAddressed program.now d ⊎ Has cells.now.words d))) }
{
    let mut touched = addressed(program);
    touched.join(cells);
    moved(alloc, program.cells(), &touched)
}

/// The shape that buffers the stores of the set.
fn shape_of(
    alloc: Global,
    program: &Program,
    graph: &Graph,
    model: Model,
    bound: Bound,
    delayed: &Numbers,
) -> Result<Shape, NoMemory>
    requires graph { IsGraphOf program.now graph.now }
    requires delayed { (s : ℕ) → Has delayed.now.words s ↔ HasDelayCycle program.now model s }
    ensures model { IfOk result (λ shape. shape.model ≡ model) }
    ensures bound { IfOk result (λ shape. shape.bound ≡ bound) }
    ensures buffered { IfOk result (λ shape. (t k : ℕ) → IsTrue (flag_at shape.buffered t k) ↔ IsDelayed program.now model t k) }
    ensures fits { IfOk result (Fits program.now) }
{
    let threads = program.threads();
    let sites = graph.sites();
    let cells = cells_of(sites, delayed);
    let storing = threads_of(sites, delayed);
    let near = sites_at(sites, &cells);
    let buffered = flags(alloc, threads, sites, delayed)?;
    let close = flags(alloc, threads, sites, &near)?;
    let points = points(
        alloc,
        model,
        threads,
        close.as_slice(),
        buffered.as_slice(),
        &storing,
    )?;
    let moved = moving(alloc, program, &cells)?;
    Ok(Shape {
        model,
        bound,
        buffered: List::new(buffered),
        moved: List::new(moved),
        points: List::new(points),
    })
}

/// The plan of the program, over its graph: just the stores that have a delay cycle are buffered, each with a note that has its
/// cycle, in order of the sites.
pub fn plan(
    alloc: Global,
    program: &Program,
    graph: &Graph,
    model: Model,
    bound: Bound,
) -> Result<(Shape, Head), NoMemory>
    requires { IsGraphOf program.now graph.now }
    ensures { IfOk result (λ made. IsPlanOf program.now model bound made.0 made.1) }
{
    let notes = notes_of(alloc, graph, model)?;
    let delayed = noted(notes.as_slice());
    let shape = shape_of(alloc, program, graph, model, bound, &delayed)?;
    Ok((
        shape,
        Head {
            model,
            bound,
            notes: List::new(notes),
        },
    ))
}
