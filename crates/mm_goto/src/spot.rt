/// Where an instruction stands: its thread, and its place in the thread's code.
#[derive(Clone, Copy, PartialEq, Eq)]
pub struct Spot {
    pub thread: u32,
    pub index: u32,
}
