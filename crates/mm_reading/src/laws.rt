//! What holds of all readers.
ghost use Rattle.std.specs.Prelude.{◌≡◌, List};
ghost use Rattle.mm_reading.specs.Parsing.{Parser, after, pure};

/// Reading one thing after another has a first and a last part that read nothing, and it does not matter which two of
/// three parts are taken together.
pub fn reading_in_turn<A, B, C, T>()
    ensures first { (a : A) (f : A → Parser T B) (ts : List T) → after (pure a ts) f ≡ f a ts }
    ensures last { (p : Parser T A) (ts : List T) → after (p ts) pure ≡ p ts }
    ensures together { (p : Parser T A) (f : A → Parser T B) (g : B → Parser T C) (ts : List T) → after (after (p ts) f) g ≡ after (p ts) (λ a us. after (f a us) g) }
{}
