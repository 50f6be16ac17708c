//! What a command line asks for.

/// As what the smaller run is written.
#[derive(Clone, Copy, Debug, Drop, PartialEq, Eq)]
pub enum Form {
    /// A schedule.
    Schedule,
    /// A record.
    Record,
}

/// What the words after `shrink` ask for, beside the goal.
#[derive(Clone, Copy, Debug, Drop, PartialEq, Eq)]
pub struct ShrinkOptions {
    /// How many trials are made at most.
    pub tries: u32,
    /// As what the smaller run is written.
    pub form: Form,
}
