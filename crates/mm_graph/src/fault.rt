ghost use Rattle.std.specs.Prelude.{◌≡◌};
ghost use Rattle.mm_graph.specs.declared.fault.GraphFault.TheVariants as fault;

use mm_goto::NoMemory;

/// Why a program has no graph.
#[derive(Clone, Copy, Debug, PartialEq, Eq)]
pub enum GraphFault {
    /// It has more than 1,024 sites.
    TooManySites,
    /// It has more than 256 cells.
    TooManyCells,
    NoMemory,
}

impl From<NoMemory> for GraphFault {
    ghost from_gives = { λ _ e. e ≡ fault.NoMemory };

    fn from(_: NoMemory) -> GraphFault {
        GraphFault::NoMemory
    }
}
