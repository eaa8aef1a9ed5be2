//! The most that a program may have.

/// Threads, main included.
pub const MAX_THREADS: usize = 16;
/// Instructions of all threads.
pub const MAX_INSTRUCTIONS: usize = 8_388_608;
/// Locals of one thread.
pub const MAX_LOCALS: u32 = 524_288;
/// Mutexes.
pub const MAX_MUTEXES: usize = 64;
/// Cells.
pub const MAX_CELLS: usize = 65_536;
