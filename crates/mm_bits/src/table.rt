ghost use Rattle.std.specs.Prelude.{◌≡◌, ℕ, ◌<◌, ◌≤◌, length};
ghost use Rattle.mm_bits.specs.Table.{Linked};

use crate::numbers::Numbers;

/// A relation over the numbers below `side`, which is at most 1,024.
#[derive(Drop)]
pub struct Bits {
    pub side: u32,
    pub rows: Vec<Numbers>,
    ghost sized: { length rows.items ≡ side },
    ghost small: { side ≤ 1024 },
    ghost within: { (a b : ℕ) → Linked rows.items a b → b < side },
}
