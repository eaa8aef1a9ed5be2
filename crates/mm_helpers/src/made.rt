ghost use Rattle.std.specs.Prelude.{◌≡◌, ◌≤◌, ◌<◌, ◌^◌, ◌*◌, IfOk};
ghost use Rattle.mm_goto.specs.Bounds.{greatest};
ghost use Rattle.mm_helpers.specs.Helpers as specs;
ghost use Rattle.mm_words.specs.Words.{array};

use crate::{flush, pso, tso};
use mm_goto::{Bound, Model, NoMemory};
use mm_tree::Item;
use mm_words::{add, array_item};
use sqlite_items::Boxed;
use std::alloc::Global;

fn tso_helpers(alloc: Global, threads: u32, bound: u32) -> Result<Vec<Item>, NoMemory>
    requires threads { threads < 2 ^ 31 }
    requires bound { bound < 2 ^ 31 }
    ensures { IfOk result (λ items. items.items ≡ specs.tso_helpers threads bound) }
{
    let mut items = Vec::new(alloc);
    add(&mut items, tso::pop(alloc, bound)?)?;
    add(&mut items, flush::flush(alloc, threads)?)?;
    add(&mut items, tso::empty(alloc)?)?;
    add(&mut items, tso::put(alloc, bound)?)?;
    add(&mut items, tso::get(alloc, bound)?)?;
    add(&mut items, tso::set(alloc)?)?;
    Ok(items)
}

fn pso_helpers(alloc: Global, threads: u32, cells: u32, bound: u32) -> Result<Vec<Item>, NoMemory>
    requires rows { threads * cells < 2 ^ 31 }
    requires cells { cells < 2 ^ 31 }
    requires bound { bound < 2 ^ 31 }
    ensures { IfOk result (λ items. items.items ≡ specs.pso_helpers threads cells bound) }
{
    let mut items = Vec::new(alloc);
    add(&mut items, pso::pop(alloc, cells, bound)?)?;
    add(&mut items, flush::flush(alloc, threads * cells)?)?;
    add(&mut items, pso::empty(alloc, cells)?)?;
    add(&mut items, pso::put(alloc, cells, bound)?)?;
    add(&mut items, pso::get(alloc, cells, bound)?)?;
    add(&mut items, pso::set(alloc, cells)?)?;
    Ok(items)
}

/// The functions that keep pending stores in arrays, with the place 1:1 everywhere, for up to 16 threads and 256 cells.
pub fn helpers(
    alloc: Global,
    threads: u32,
    cells: u32,
    model: Model,
    bound: Bound,
) -> Result<Vec<Item>, NoMemory>
    requires threads { threads ≤ 16 }
    requires cells { cells ≤ 256 }
    ensures { IfOk result (λ items. items.items ≡ specs.helpers model (record { threads = threads; cells = cells; bound = greatest bound })) }
{
    match model {
        Model::Tso => tso_helpers(alloc, threads, bound.get()),
        Model::Pso => pso_helpers(alloc, threads, cells, bound.get()),
    }
}

// An array without start values.
fn plain_array(alloc: Global, name: &str, len: u32) -> Result<Boxed<Item>, NoMemory>
    requires { len < 2 ^ 31 }
    ensures { IfOk result (λ item. item ≡ array name.now len) }
{
    array_item(alloc, name, len, Vec::new(alloc))
}

fn tso_arrays(alloc: Global, threads: u32, bound: u32) -> Result<Vec<Item>, NoMemory>
    requires threads { threads ≤ 16 }
    requires bound { bound ≤ 8 }
    ensures { IfOk result (λ items. items.items ≡ specs.tso_arrays threads bound) }
{
    let places = threads * bound;
    let mut items = Vec::new(alloc);
    add(&mut items, plain_array(alloc, "wm_len", threads)?)?;
    add(&mut items, plain_array(alloc, "wm_cell", places)?)?;
    add(&mut items, plain_array(alloc, "wm_val", places)?)?;
    Ok(items)
}

fn pso_arrays(alloc: Global, threads: u32, cells: u32, bound: u32) -> Result<Vec<Item>, NoMemory>
    requires threads { threads ≤ 16 }
    requires cells { cells ≤ 256 }
    requires bound { bound ≤ 8 }
    ensures { IfOk result (λ items. items.items ≡ specs.pso_arrays threads cells bound) }
{
    let rows = threads * cells;
    let mut items = Vec::new(alloc);
    add(&mut items, plain_array(alloc, "wm_len", rows)?)?;
    add(&mut items, plain_array(alloc, "wm_val", rows * bound)?)?;
    Ok(items)
}

/// The arrays that the helpers work on, with the place 1:1 everywhere, for up to 16 threads and 256 cells.
pub fn arrays(
    alloc: Global,
    threads: u32,
    cells: u32,
    model: Model,
    bound: Bound,
) -> Result<Vec<Item>, NoMemory>
    requires threads { threads ≤ 16 }
    requires cells { cells ≤ 256 }
    ensures { IfOk result (λ items. items.items ≡ specs.arrays model (record { threads = threads; cells = cells; bound = greatest bound })) }
{
    match model {
        Model::Tso => tso_arrays(alloc, threads, bound.get()),
        Model::Pso => pso_arrays(alloc, threads, cells, bound.get()),
    }
}
