ghost use Rattle.std.specs.Prelude.{◌≡◌, ◌++◌, ℕ, ◌+◌, ◌*◌, ◌<◌, ◌^◌, length, All, IfOk};
ghost use Rattle.mm_points.specs.Cells.{ArePointsOf, IsListed, cells_at};
ghost use Rattle.mm_points.specs.reading.Ruled.{starts_from, codes_from, WritesBelow};

use crate::listing::list_threads;
use crate::ruled::{most_locals, pointers_of, put_starts, put_threads};
use crate::rules::Rule;
use crate::settling::solve;
use mm_goto::{Cell, List, NoMemory, Program, Thread};
use std::alloc::Global;

/// For each instruction of each thread, the cells that its target may name.
#[derive(Drop)]
pub struct PointsTo {
    cells: List<List<List<u32>>>,
}

impl PointsTo {
    /// The cells that the target of instruction `i` of thread `t` may name, in order.
    pub fn cells(&self, t: u32, i: u32) -> &[u32]
        requires { IsListed self.now t i }
        ensures { result.now ≡ cells_at self.now t i }
    {
        self.cells.items()[t as usize].items()[i as usize].items()
    }
}

/// The rules of the start values and of the instructions.
fn rules_of(
    alloc: Global,
    step: u32,
    cells: &[Cell],
    threads: &[Thread],
) -> Result<Vec<Rule>, NoMemory>
    requires few { length cells.now + length threads.now * step < 2 ^ 32 }
    requires below { All (WritesBelow step) threads.now }
    ensures { IfOk result (λ rules. rules.items ≡ starts_from (length cells.now) 0 cells.now ++ codes_from (length cells.now) step threads.now) }
{
    let base = cells.len() as u32;
    let mut rules = Vec::new(alloc);
    put_starts(alloc, base, cells, &mut rules)?;
    put_threads(alloc, base, step, threads, &mut rules)?;
    Ok(rules)
}

/// Which cells each target of the program may name, whatever the order of its instructions.
pub fn points_to(alloc: Global, program: &Program) -> Result<PointsTo, NoMemory>
    ensures { IfOk result (λ points. ArePointsOf program.now points) }
{
    let cells = program.cells();
    let threads = program.threads();
    let step = most_locals(threads);
    let rules = rules_of(alloc, step, cells, threads)?;
    let pointers = pointers_of(alloc, cells)?;
    let holders = cells.len() + threads.len() * step as usize;
    let sets = solve(alloc, holders, pointers.as_slice(), rules.as_slice())?;
    let listed = list_threads(alloc, sets.as_slice(), cells.len() as u32, step, threads)?;
    Ok(PointsTo { cells: listed })
}
