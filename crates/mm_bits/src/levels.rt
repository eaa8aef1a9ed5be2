ghost use Rattle.std.specs.Prelude.{◌≡◌, ℕ, ◌+◌, ◌-◌, ◌<◌, ◌≤◌, ◌↔◌, ◌⊎◌, length, IfOk};
ghost use Rattle.mm_bits.specs.Near.{AreLevels};
ghost use Rattle.mm_bits.specs.Table.{Linked, AreTurned};
ghost use Rattle.mm_bits.specs.Words.{Has};

use crate::numbers::Numbers;
use mm_goto::NoMemory;
use std::alloc::Global;

/// For each number of edges from 1 on, the nodes from which a path of at most so many leads to the goal. The last of these
/// sets has all nodes from which a path leads there.
#[derive(Drop)]
pub struct Levels {
    pub goal: u32,
    pub sets: Vec<Numbers>,
}

impl Levels {
    /// From where a path leads to the goal.
    pub fn all(&self) -> &Numbers
        requires { 1 ≤ length self.now.sets.items }
        ensures { (x : ℕ) → Has result.now.words x ↔ Linked self.now.sets.items (length self.now.sets.items - 1) x }
    {
        &self.sets[self.sets.len() - 1]
    }
}

/// The levels of goal `b`: each is what has an edge into what the last level added.
pub fn levels_of(
    alloc: Global,
    rows: &[Numbers],
    back: &[Numbers],
    b: u32,
) -> Result<Levels, NoMemory>
    requires small { length back.now ≤ 1024 }
    requires turned { AreTurned rows.now back.now }
    requires b { b < length back.now }
    ensures goal { IfOk result (λ levels. levels.goal ≡ b) }
    ensures sets { IfOk result (λ levels. AreLevels (Linked rows.now) b levels.sets.items) }
{
    let mut seen = back[b as usize];
    let mut fresh = seen;
    let mut sets = Vec::new(alloc);
    'levels: loop {
        sets.push(seen)?;
        fresh = before(back, &fresh);
        fresh.remove(&seen);
        if fresh.is_empty() {
            return Ok(Levels { goal: b, sets });
        }
        seen.join(&fresh);
    }
}

/// What has an edge into the set, by the relation from right to left.
fn before(back: &[Numbers], set: &Numbers) -> Numbers
    requires { length back.now ≤ 1024 }
    ensures { (x : ℕ) → Has result.words x ↔ ((y : ℕ) × Linked back.now y x × Has set.now.words y) }
{
    let mut found = Numbers::empty();
    'nodes: for y in 0..back.len() as u32 {
        if set.has(y) {
            found.join(&back[y as usize]);
        }
    }
    found
}
