use mm_goto::NoMemory;
use std::alloc::{AllocError, AllocFailed};

/// Why there is no text to compare with.
#[derive(Clone, Copy, Debug, PartialEq, Eq)]
pub enum CaseFault {
    /// The first lines do not say the sizes, or not a model and a bound.
    NoForm,
    /// There are more than 16 threads or 256 cells.
    TooLarge,
    NoMemory,
}

impl From<NoMemory> for CaseFault {
    fn from(_: NoMemory) -> CaseFault {
        CaseFault::NoMemory
    }
}

impl From<AllocError> for CaseFault {
    fn from(_: AllocError) -> CaseFault {
        CaseFault::NoMemory
    }
}

impl<T: Drop> From<AllocFailed<T>> for CaseFault {
    fn from(_: AllocFailed<T>) -> CaseFault {
        CaseFault::NoMemory
    }
}
