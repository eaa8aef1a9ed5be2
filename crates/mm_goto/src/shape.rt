use crate::bound::Bound;
use crate::ident::At;
use crate::list::List;
use crate::model::Model;

/// Which instructions of a program are woven with buffers.
#[derive(Debug, Drop)]
pub struct Shape {
    pub model: Model,
    pub bound: Bound,
    /// For each instruction of each thread, whether it is a buffered store.
    pub buffered: List<List<bool>>,
    /// For each cell, whether it lives in the shared array of the woven program.
    pub moved: List<bool>,
    /// For each instruction of each thread, whether pending stores may be flushed there.
    pub points: List<List<bool>>,
}

/// A buffered store, with a delay cycle of it as a list of sites.
#[derive(Debug, Drop)]
pub struct Note {
    pub site: u32,
    pub thread: u32,
    pub at: At,
    pub cycle: List<u32>,
}

/// What a woven program says of itself in its first lines.
#[derive(Debug, Drop)]
pub struct Head {
    pub model: Model,
    pub bound: Bound,
    pub notes: List<Note>,
}
