ghost use Rattle.std.specs.Prelude.{◌≡◌, ℕ, ◌+◌, ◌-◌, ◌<◌, ◌≤◌, length, IfOk};
ghost use Rattle.mm_goto.specs.Paths.{IsFirstPath};
ghost use Rattle.mm_bits.specs.Near.{AreLevels};
ghost use Rattle.mm_bits.specs.Table.{Linked};
ghost use Rattle.mm_bits.specs.Words.{Has};

use crate::levels::Levels;
use crate::numbers::Numbers;
use mm_goto::NoMemory;
use std::alloc::Global;

/// The first level that has the node.
fn nearest(levels: &[Numbers], a: u32) -> usize
    requires some { 1 ≤ length levels.now }
    requires a { a < 1024 }
    requires last { Linked levels.now (length levels.now - 1) a }
    ensures within { result < length levels.now }
    ensures has { Linked levels.now result a }
    ensures first { (d : ℕ) → d + 1 ≡ result → ¬ (Linked levels.now d a) }
{
    let mut d = levels.len() - 1;
    'levels: while d > 0 && levels[d - 1].has(a) {
        d -= 1;
    }
    d
}

/// The first path from `a` to the goal: from each node to the least that is nearer.
pub fn walk(alloc: Global, rows: &[Numbers], levels: &Levels, a: u32) -> Result<Vec<u32>, NoMemory>
    requires small { length rows.now ≤ 1024 }
    requires a { a < 1024 }
    requires levels { AreLevels (Linked rows.now) levels.now.goal levels.now.sets.items }
    requires last { Linked levels.now.sets.items (length levels.now.sets.items - 1) a }
    ensures { IfOk result (λ path. IsFirstPath (Linked rows.now) a path.items levels.now.goal) }
{
    let sets = levels.sets.as_slice();
    let mut path = Vec::new(alloc);
    let mut here = a;
    let mut d = nearest(sets, a);
    'path: while d > 0 {
        path.push(here)?;
        here = next(&rows[here as usize], &sets[d - 1]);
        d -= 1;
    }
    path.push(here)?;
    Ok(path)
}

/// The least node that both have.
fn next(row: &Numbers, level: &Numbers) -> u32
    requires { (y : ℕ) × Has row.now.words y × Has level.now.words y }
    ensures below { result < 1024 }
    ensures row { Has row.now.words result }
    ensures level { Has level.now.words result }
    ensures least { (m : ℕ) → Has row.now.words m → Has level.now.words m → result ≤ m }
{
    match row.first_common(level) {
        Some(n) => n,
        None => unreachable!(),
    }
}
