ghost use Rattle.std.specs.Prelude.{◌≡◌, ℕ, ◌<◌, ◌≤◌, ◌-◌, ◌↔◌, ◌⊎◌, length, IfOk, IfSome, IfNone, IsTrue};
ghost use Rattle.mm_goto.specs.Paths.{Leads, IsFirstPath};
ghost use Rattle.mm_bits.specs.Table.{Linked, AreTurned};
ghost use Rattle.mm_bits.specs.Related.{Related};
ghost use Rattle.mm_bits.specs.Near.{AreLevels};
ghost use Rattle.mm_bits.specs.Words.{Has};

use crate::levels::{self, Levels};
use crate::numbers::Numbers;
use crate::table::Bits;
use crate::{closing, walk};
use mm_goto::NoMemory;
use std::alloc::Global;

impl Bits {
    /// The empty relation.
    pub fn new(alloc: Global, side: u32) -> Result<Bits, NoMemory>
        requires { side ≤ 1024 }
        ensures side { IfOk result (λ t. t.side ≡ side) }
        ensures empty { IfOk result (λ t. (a b : ℕ) → ¬ (Related t a b)) }
    {
        Ok(Bits {
            side,
            rows: vec![in alloc; Numbers::empty(); side as usize]?,
        })
    }

    /// Relates `a` to `b`, both below `side`.
    pub fn set(&mut self, a: u32, b: u32)
        requires a { a < self.old.side }
        requires b { b < self.old.side }
        ensures side { self.new.side ≡ self.old.side }
        ensures set { (x y : ℕ) → Related self.new x y ↔ (Related self.old x y ⊎ ((x ≡ a) × (y ≡ b))) }
    {
        self.rows[a as usize].add(b);
    }

    /// Whether `a` is related to `b`, both below `side`.
    #[inline(always)]
    pub fn get(&self, a: u32, b: u32) -> bool
        requires a { a < self.now.side }
        requires b { b < self.now.side }
        ensures { IsTrue result ↔ Related self.now a b }
    {
        self.rows[a as usize].has(b)
    }

    /// Makes the transitive closure, through one number after the other (Warshall, JACM 1962).
    pub fn close(&mut self)
        ensures side { self.new.side ≡ self.old.side }
        ensures closed { (a b : ℕ) → Related self.new a b ↔ Leads (Related self.old) a b }
    {
        closing::close(self.rows.as_mut_slice());
    }

    /// The path of fewest edges from `a` to `b`, of one edge or more, and of these the least list. It has all its nodes but
    /// the last. There is none where no path leads there.
    pub fn path(&self, alloc: Global, a: u32, b: u32) -> Result<Option<Vec<u32>>, NoMemory>
        requires a { a < self.now.side }
        requires b { b < self.now.side }
        ensures path { IfOk result (λ found. IfSome found (λ path. IsFirstPath (Related self.now) a path.items b)) }
        ensures none { IfOk result (λ found. IfNone found (¬ (Leads (Related self.now) a b))) }
    {
        let back = self.turned(alloc)?;
        let levels = self.levels(alloc, &back, b)?;
        if !levels.sets[levels.sets.len() - 1].has(a) {
            return Ok(None);
        }
        Ok(Some(self.walk(alloc, &levels, a)?))
    }

    /// The relation from right to left.
    pub fn turned(&self, alloc: Global) -> Result<Bits, NoMemory>
        ensures side { IfOk result (λ back. back.side ≡ self.now.side) }
        ensures turned { IfOk result (λ back. AreTurned self.now.rows.items back.rows.items) }
    {
        let mut back = Bits::new(alloc, self.side)?;
        'rows: for a in 0..self.side {
            back.turn_row(&self.rows[a as usize], a);
        }
        Ok(back)
    }

    /// Relates each number of the set to `a`.
    fn turn_row(&mut self, row: &Numbers, a: u32)
        requires a { a < self.old.side }
        ensures side { self.new.side ≡ self.old.side }
        ensures turned { (x y : ℕ) → Related self.new x y ↔ (Related self.old x y ⊎ ((x < self.old.side) × Has row.now.words x × (y ≡ a))) }
    {
        'columns: for b in 0..self.side {
            if row.has(b) {
                self.set(b, a);
            }
        }
    }

    /// From where how near the goal is. `back` is the relation from right to left.
    pub fn levels(&self, alloc: Global, back: &Bits, goal: u32) -> Result<Levels, NoMemory>
        requires goal { goal < self.now.side }
        requires side { back.now.side ≡ self.now.side }
        requires back { AreTurned self.now.rows.items back.now.rows.items }
        ensures goal { IfOk result (λ levels. levels.goal ≡ goal) }
        ensures sets { IfOk result (λ levels. AreLevels (Related self.now) goal levels.sets.items) }
    {
        levels::levels_of(alloc, self.rows.as_slice(), back.rows.as_slice(), goal)
    }

    /// The first of the shortest paths from `a` to the goal.
    pub fn walk(&self, alloc: Global, levels: &Levels, a: u32) -> Result<Vec<u32>, NoMemory>
        requires a { a < 1024 }
        requires levels { AreLevels (Related self.now) levels.now.goal levels.now.sets.items }
        requires last { Linked levels.now.sets.items (length levels.now.sets.items - 1) a }
        ensures { IfOk result (λ path. IsFirstPath (Related self.now) a path.items levels.now.goal) }
    {
        walk::walk(alloc, self.rows.as_slice(), levels, a)
    }

    /// The least number in the set to which `a` is related.
    pub fn first_in(&self, a: u32, set: &Numbers) -> Option<u32>
        requires { a < self.now.side }
        ensures below { IfSome result (λ n. n < 1024) }
        ensures this { IfSome result (λ n. Related self.now a n) }
        ensures that { IfSome result (λ n. Has set.now.words n) }
        ensures least { IfSome result (λ n. (m : ℕ) → Related self.now a m → Has set.now.words m → n ≤ m) }
        ensures none { IfNone result ((m : ℕ) → Related self.now a m → ¬ (Has set.now.words m)) }
    {
        self.rows[a as usize].first_common(set)
    }
}
