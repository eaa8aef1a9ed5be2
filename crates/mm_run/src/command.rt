use mm_goto::{Bound, Model};

/// What the words of the command line ask for.
#[derive(Clone, Copy, Debug, PartialEq, Eq)]
pub enum Settings {
    /// The woven program of a source, for a model and a bound.
    Instrument(Model, Bound),
    /// The buffered stores of a source with their delay cycles, for a model and a bound.
    Cycles(Model, Bound),
    /// What a schedule does under sequential consistency.
    ReplaySc,
    /// What a schedule does with store buffers of the bound under the model.
    Replay(Model, Bound),
}
