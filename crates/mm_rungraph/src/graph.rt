use mm_goto::{List, NoMemory};
use mm_runkeys::{RunEdge, RunNode};
use mm_sched::Entry;
use std::alloc::AllocError;

/// A failing run with what its steps wait for. What is pending at the end of the run reaches memory behind it.
#[derive(Debug, Drop)]
pub struct RunGraph {
    pub nodes: List<RunNode>,
    /// The entry by which each of the nodes is taken.
    pub entries: List<Entry>,
    pub edges: List<RunEdge>,
    /// The number of the assertion that fails.
    pub verdict: u32,
}

/// Why a schedule has no run graph.
#[derive(Clone, Copy, Debug, PartialEq, Eq)]
pub enum RunFault {
    /// The entry of that number, from 1, is not enabled.
    Stuck(u64),
    NotFailing,
    NoMemory,
}

impl From<NoMemory> for RunFault {
    ghost use Rattle.std.specs.Prelude.{◌≡◌};
    ghost use Rattle.mm_rungraph.specs.declared.graph.RunFault.TheVariants as fault;

    ghost from_gives = { λ _ e. e ≡ fault.NoMemory };

    fn from(_: NoMemory) -> RunFault {
        RunFault::NoMemory
    }
}

impl From<AllocError> for RunFault {
    ghost use Rattle.std.specs.Prelude.{◌≡◌};
    ghost use Rattle.mm_rungraph.specs.declared.graph.RunFault.TheVariants as fault;

    ghost from_gives = { λ _ e. e ≡ fault.NoMemory };

    fn from(_: AllocError) -> RunFault {
        RunFault::NoMemory
    }
}
