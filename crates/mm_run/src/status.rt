ghost use Rattle.std.specs.Prelude.{◌≡◌};
ghost use Rattle.mm_run.specs.Status.{number_of};

/// How a call of `run` ended.
#[derive(Clone, Copy, Debug, PartialEq, Eq)]
pub enum Status {
    /// The output was written.
    Done,
    /// The words of the command line are no command.
    Words,
    /// A read failed.
    ReadFault,
    /// The input is too long.
    TooLong,
    /// The program is refused.
    Refused,
    /// The schedule is not well written.
    BadSchedule,
    /// An entry of the schedule is not enabled.
    Stuck,
    /// The schedule fails no assertion.
    NotFailing,
    /// A write failed.
    WriteFault,
    NoMemory,
}

impl Status {
    /// The exit status of the program, 0 to 9.
    pub fn number(self) -> u8
        ensures { result ≡ number_of self }
    {
        match self {
            Status::Done => 0,
            Status::Words => 1,
            Status::ReadFault => 2,
            Status::TooLong => 3,
            Status::Refused => 4,
            Status::BadSchedule => 5,
            Status::Stuck => 6,
            Status::NotFailing => 7,
            Status::WriteFault => 8,
            Status::NoMemory => 9,
        }
    }
}
