/// Which programs are read: those that a person writes, or those that weaving makes.
#[derive(Clone, Copy, PartialEq, Eq)]
pub enum Side {
    /// A source: no `goto`, no label and no atomic section.
    Source,
    /// An output: these too, and each assertion has its numbered text.
    Output,
}
