use super::count::entry_count;
use super::entry::Entry;
use mm_goto::{List, NoMemory};
use std::alloc::{AllocError, AllocFailed};

/// The most entries that the text of a schedule may stand for.
pub const MAX_ENTRIES: u32 = 10_000_000;
/// The most entries that one line may stand for.
pub const FULL: u32 = 4_294_967_295;

/// The same entry so many times, one after another.
#[derive(Clone, Copy, Debug, PartialEq, Eq)]
pub struct Line {
    pub item: Entry,
    pub count: u32,
}

/// What a machine is asked, in order: the entries of each line after those of the line before.
#[derive(Debug, Drop)]
pub struct Schedule {
    pub lines: List<Line>,
}

impl Schedule {
    ghost use Rattle.std.specs.Prelude.{◌≡◌, length, min};
    ghost use Rattle.mm_sched.specs.ScheduleText.{entries_of};

    /// How many entries there are, or the greatest `u64` where there are more.
    pub fn len(&self) -> u64
        ensures { result ≡ min (length (entries_of self.now)) u64.MAX }
    {
        entry_count(self.lines.items())
    }
}

/// Why no schedule was read.
#[derive(Clone, Copy, Debug, PartialEq, Eq)]
pub enum SchedFault {
    /// The number of the first line that does not fit, which counts from 1.
    BadLine(u32),
    NoMemory,
}

impl From<NoMemory> for SchedFault {
    ghost use Rattle.std.specs.Prelude.{◌≡◌};
    ghost use Rattle.mm_sched.specs.declared.schedule.SchedFault.TheVariants as fault;

    ghost from_gives = { λ _ e. e ≡ fault.NoMemory };

    fn from(_: NoMemory) -> SchedFault {
        SchedFault::NoMemory
    }
}

impl From<AllocError> for SchedFault {
    ghost use Rattle.std.specs.Prelude.{◌≡◌};
    ghost use Rattle.mm_sched.specs.declared.schedule.SchedFault.TheVariants as fault;

    ghost from_gives = { λ _ e. e ≡ fault.NoMemory };

    fn from(_: AllocError) -> SchedFault {
        SchedFault::NoMemory
    }
}

impl<T: Drop> From<AllocFailed<T>> for SchedFault {
    ghost use Rattle.std.specs.Prelude.{◌≡◌};
    ghost use Rattle.mm_sched.specs.declared.schedule.SchedFault.TheVariants as fault;

    ghost from_gives = { λ _ e. e ≡ fault.NoMemory };

    fn from(_: AllocFailed<T>) -> SchedFault {
        SchedFault::NoMemory
    }
}
