//! The statuses that programs end with.

ghost use Rattle.std.specs.Prelude.{◌≡◌};
ghost use Rattle.ct_streams.specs.Statuses.{code};

/// What the status tells that a program ends with.
#[derive(Clone, Copy, Debug, Drop, PartialEq, Eq)]
pub enum Status {
    /// What was asked for was done.
    Done,
    /// A step or a line was refused, or what was looked for isn't there.
    Refused,
    /// The input is no record.
    NoRecord,
    /// The words of the command line were refused.
    Words,
    /// A stream failed.
    Stream,
    /// Memory, a thread or the board was refused.
    Memory,
}

impl Status {
    /// The status as a number: 0 to 5, in the order of the variants.
    pub fn code(self) -> u8
        ensures { result ≡ code self }
    {
        match self {
            Status::Done => 0,
            Status::Refused => 1,
            Status::NoRecord => 2,
            Status::Words => 3,
            Status::Stream => 4,
            Status::Memory => 5,
        }
    }
}
