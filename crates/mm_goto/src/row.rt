/// Cells that stand in a row: the first, and how many they are.
#[derive(Clone, Copy, PartialEq, Eq)]
pub struct Row {
    pub first: u32,
    pub len: u32,
}
