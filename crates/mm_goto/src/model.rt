ghost use Rattle.std.specs.Prelude.{◌≡◌};
ghost use Rattle.mm_goto.specs.Models.{word_of};

/// A memory model.
#[derive(Clone, Copy, Debug, PartialEq, Eq)]
pub enum Model {
    /// Total store order, as x86-TSO: a thread's pending stores are flushed in their order.
    Tso,
    /// Partial store order: a thread's pending stores to one cell are flushed in their order.
    Pso,
}

impl Model {
    /// The word that names it.
    pub fn word(self) -> &'static str
        ensures { result.now ≡ word_of self }
    {
        match self {
            Model::Tso => "tso",
            Model::Pso => "pso",
        }
    }
}
