use mm_goto::{Bound, List, Model};

/// What a schedule asks of a machine.
#[derive(Clone, Copy, Debug, PartialEq, Eq)]
pub enum Entry {
    /// The thread does its next instruction, which is no `Input`.
    Step(u32),
    /// The thread's `Input` takes the value.
    In(u32, i32),
    /// The thread's oldest pending store moves to memory.
    Flush(u32),
    /// The thread's oldest pending store to the cell moves to memory.
    FlushCell(u32, u32),
}

/// What tells one machine from another.
#[derive(Debug, Drop)]
pub enum Rules {
    /// Sequential consistency: each store writes memory at once.
    Sc,
    /// Each store is made pending.
    Buffered(Model, Bound),
    /// The stores that the list names, by thread and instruction, are made pending. Each other store writes memory at
    /// once.
    Partial(Model, Bound, List<List<bool>>),
}

/// How a store acts.
#[derive(Clone, Copy, Debug, PartialEq, Eq)]
pub enum How {
    /// It writes memory at once.
    AtOnce,
    /// It is made pending.
    Delayed,
    NotEnabled,
}

/// What a thread does by one instruction, with the places, locals, cells and values that it takes.
#[derive(Clone, Copy, Debug, PartialEq, Eq)]
pub enum Act {
    /// Goes to the place: a `Jump`, a `Branch`, an `Assume`, or an `Assert` that holds.
    Goes(u32),
    /// The local becomes the value: a `Set` or an `Input`.
    Assigns(u32, i32),
    /// Fails with the number: an `Assert`.
    Fails(u32),
    Ends,
    /// The local becomes what the thread reads at the cell, which is the value.
    Loads(u32, u32, i32),
    /// A store to the cell of the value is made pending.
    Pushes(u32, i32),
    /// A store to the cell of the value writes memory.
    Puts(u32, i32),
    Fences,
    /// Takes the mutex.
    Takes(u32),
    /// Gives the mutex back.
    Gives(u32),
    /// The local becomes the first value and the cell the second: an `Add`, or a `Cas` that finds its value.
    Updates(u32, i32, u32, i32),
    /// The local becomes 0: a `Cas` that does not find its value in the cell.
    Misses(u32, u32),
    /// Starts the thread.
    Starts(u32),
    /// Sees that the thread has ended.
    Joins(u32),
    /// Begins an atomic section.
    Enters,
    /// Ends it.
    Leaves,
}

/// What happens in one step of a machine.
#[derive(Clone, Copy, Debug, PartialEq, Eq)]
pub enum Event {
    /// The thread does this.
    Does(u32, Act),
    /// The thread's pending store to the cell of the value moves to memory.
    Flushes(u32, u32, i32),
}

/// The entry is not enabled: there is no next state.
#[derive(Clone, Copy, Debug, PartialEq, Eq)]
pub struct Stuck;
