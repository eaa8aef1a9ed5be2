ghost use Rattle.std.specs.Prelude.{◌≡◌, ℕ, ◌<◌, ◌≤◌, ◌↔◌, ◌⊎◌, length};
ghost use Rattle.mm_goto.specs.Paths.{Leads};
ghost use Rattle.mm_bits.specs.Table.{Linked};

use crate::numbers::Numbers;

/// Links what is linked by way of `k`.
fn link_through(rows: &mut [Numbers], k: u32)
    requires within { k < length rows.old }
    requires small { length rows.old ≤ 1024 }
    ensures { (a b : ℕ) → Linked rows.new a b ↔ (Linked rows.old a b ⊎ (Linked rows.old a k × Linked rows.old k b)) }
{
    let through = rows[k as usize];
    'rows: for i in 0..rows.len() {
        if rows[i].has(k) {
            rows[i].join(&through);
        }
    }
}

/// Links what a path leads to.
pub fn close(rows: &mut [Numbers])
    requires { length rows.old ≤ 1024 }
    ensures closed { (a b : ℕ) → Linked rows.new a b ↔ Leads (Linked rows.old) a b }
    ensures within { (n : ℕ) → ((a b : ℕ) → Linked rows.old a b → b < n) → (a b : ℕ) → Linked rows.new a b → b < n }
{
    'through: for k in 0..rows.len() as u32 {
        link_through(rows, k);
    }
}
