ghost use Rattle.std.specs.Prelude.{◌≡◌};
ghost use Rattle.mm_flow.specs.declared.fault.FlatFault.TheVariants as fault;
ghost use Rattle.mm_flow.specs.declared.fault.Stop.TheVariants as stop;

use mm_goto::NoMemory;

/// What a program may have too many of. The numbers depend on the side for instructions and locals alone.
#[derive(Clone, Copy, Debug, PartialEq, Eq)]
pub enum Limit {
    /// Threads with main: 16.
    Threads,
    /// Calls that nest: 64.
    NestedCalls,
    /// Instructions of all threads: 16,384 in a source, 8,388,608 in an output.
    Instructions,
    /// Locals of one thread: 4,096 in a source, 524,288 in an output.
    Locals,
    /// Mutexes: 64.
    Mutexes,
    /// Cells: 65,536.
    Cells,
}

/// Why a tree is not flattened.
#[derive(Clone, Copy, Debug, PartialEq, Eq)]
pub enum FlatFault {
    /// A limit is passed: the first, in the order of the limits.
    TooMany(Limit),
    NoMemory,
}

impl From<NoMemory> for FlatFault {
    ghost from_gives = { λ _ e. e ≡ fault.NoMemory };

    fn from(_: NoMemory) -> FlatFault {
        FlatFault::NoMemory
    }
}

/// Why a thread's code is not made.
#[derive(Clone, Copy, Debug, PartialEq, Eq)]
pub enum Stop {
    /// It has more instructions than there may be.
    Full,
    NoMemory,
}

impl From<NoMemory> for Stop {
    ghost from_gives = { λ _ e. e ≡ stop.NoMemory };

    fn from(_: NoMemory) -> Stop {
        Stop::NoMemory
    }
}
