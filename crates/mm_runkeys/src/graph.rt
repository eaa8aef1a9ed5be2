/// A step of a run. Instructions are counted by thread, from 0.
#[derive(Clone, Copy, Debug, PartialEq, Eq)]
pub enum RunNode {
    /// The thread's instruction of that number is executed.
    Run(u32, u32),
    /// The store that is the thread's instruction of that number reaches memory.
    Flush(u32, u32),
}

/// Why a step comes before another.
#[derive(Clone, Copy, Debug, PartialEq, Eq)]
pub enum EdgeKind {
    Program,
    Issue,
    Fifo,
    Reads,
    Coherence,
    FromRead,
    Drain,
    Mutex,
    Start,
    Join,
    Room,
}

/// An edge from one step to a later one, both by their numbers in the run, from 0.
#[derive(Clone, Copy, Debug, PartialEq, Eq)]
pub struct RunEdge {
    pub from: u32,
    pub to: u32,
    pub kind: EdgeKind,
}
