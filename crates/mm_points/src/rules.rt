use mm_goto::{List, Row};

/// What is named: the cells of rows, and what the holders of locals have. A local's holder has its number, from the base on.
#[derive(Drop)]
pub struct Aim {
    pub base: u32,
    pub rows: List<Row>,
    pub locals: List<u32>,
}

/// What a holder's set must contain.
#[derive(Drop)]
pub enum Rule {
    Nothing,
    /// What is named.
    Set(u32, Aim),
    /// What the pointers that are named have.
    Load(u32, Aim),
    /// The pointers that the first names have what the second names.
    Store(Aim, Aim),
}
