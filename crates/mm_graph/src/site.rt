use mm_goto::{At, List};

/// What a site does.
#[derive(Clone, Copy, Debug, PartialEq, Eq)]
pub enum SiteKind {
    Load,
    Store,
    /// A fetch and add, or a compare and swap.
    Update,
    Lock,
    Unlock,
    Start,
    Join,
}

/// An instruction that other threads can see: where it stands, the place in the text from which it comes, what it does, the
/// mutex or thread that it is about, else 0, and the cells that it may access, in order.
#[derive(Debug, Drop)]
pub struct Site {
    pub thread: u32,
    pub index: u32,
    pub at: At,
    pub kind: SiteKind,
    pub subject: u32,
    pub cells: List<u32>,
}
