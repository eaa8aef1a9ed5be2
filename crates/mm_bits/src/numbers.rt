ghost use Rattle.std.specs.Prelude.{◌≡◌, ℕ, ◌<◌, ◌≤◌, ◌↔◌, ◌⊎◌, IfSome, IfNone, IsTrue, true, false};
ghost use Rattle.mm_bits.specs.Words.{Has};

/// A set of numbers below 1,024, as bits of words.
#[derive(Clone, Copy)]
pub struct Numbers {
    pub words: [u64; 16],
}

impl Numbers {
    /// The empty set.
    pub fn empty() -> Numbers
        ensures { (n : ℕ) → ¬ (Has result.words n) }
    {
        Numbers { words: [0; 16] }
    }

    /// Whether the number, below 1,024, is in the set.
    #[inline(always)]
    pub fn has(&self, n: u32) -> bool
        requires { n < 1024 }
        ensures { IsTrue result ↔ Has self.now.words n }
    {
        self.words[(n / 64) as usize] >> (n % 64) & 1 == 1
    }

    /// Adds the number, below 1,024.
    #[inline(always)]
    pub fn add(&mut self, n: u32)
        requires { n < 1024 }
        ensures { (m : ℕ) → Has self.new.words m ↔ (Has self.old.words m ⊎ (m ≡ n)) }
    {
        self.words[(n / 64) as usize] |= 1u64 << (n % 64);
    }

    /// Adds what the other set has.
    pub fn join(&mut self, other: &Numbers)
        ensures { (m : ℕ) → Has self.new.words m ↔ (Has self.old.words m ⊎ Has other.now.words m) }
    {
        join_words(&mut self.words, &other.words);
    }

    /// Removes what the other set has.
    pub fn remove(&mut self, other: &Numbers)
        ensures { (m : ℕ) → Has self.new.words m ↔ (Has self.old.words m × ¬ (Has other.now.words m)) }
    {
        remove_words(&mut self.words, &other.words);
    }

    /// The least number that both sets have.
    #[inline(always)]
    pub fn first_common(&self, other: &Numbers) -> Option<u32>
        ensures below { IfSome result (λ n. n < 1024) }
        ensures this { IfSome result (λ n. Has self.now.words n) }
        ensures that { IfSome result (λ n. Has other.now.words n) }
        ensures least { IfSome result (λ n. (m : ℕ) → Has self.now.words m → Has other.now.words m → n ≤ m) }
        ensures none { IfNone result ((m : ℕ) → Has self.now.words m → ¬ (Has other.now.words m)) }
    {
        first_common_word(&self.words, &other.words)
    }

    /// Whether the set has no number.
    pub fn is_empty(&self) -> bool
        ensures none { result ≡ true → (m : ℕ) → ¬ (Has self.now.words m) }
        ensures some { result ≡ false → (m : ℕ) × (m < 1024) × Has self.now.words m }
    {
        self.first_common(self).is_none()
    }
}

fn join_words(into: &mut [u64; 16], other: &[u64; 16])
    ensures { (m : ℕ) → Has into.new m ↔ (Has into.old m ⊎ Has other.now m) }
{
    'words: for k in 0..16 {
        into[k] |= other[k];
    }
}

fn remove_words(from: &mut [u64; 16], other: &[u64; 16])
    ensures { (m : ℕ) → Has from.new m ↔ (Has from.old m × ¬ (Has other.now m)) }
{
    'words: for k in 0..16 {
        from[k] &= !other[k];
    }
}

#[inline(always)]
fn first_common_word(a: &[u64; 16], b: &[u64; 16]) -> Option<u32>
    ensures below { IfSome result (λ n. n < 1024) }
    ensures this { IfSome result (λ n. Has a.now n) }
    ensures that { IfSome result (λ n. Has b.now n) }
    ensures least { IfSome result (λ n. (m : ℕ) → Has a.now m → Has b.now m → n ≤ m) }
    ensures none { IfNone result ((m : ℕ) → Has a.now m → ¬ (Has b.now m)) }
{
    'words: for k in 0..16u32 {
        let both = a[k as usize] & b[k as usize];
        if both != 0 {
            return Some(k * 64 + both.trailing_zeros());
        }
    }
    None
}
