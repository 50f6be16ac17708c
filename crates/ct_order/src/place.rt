//! Where lines of logs stand.

/// Where a line stands: in the log of this place among the logs, from 0, as the line of this number, from 1.
#[derive(Clone, Copy, Debug, Drop, PartialEq, Eq, PartialOrd, Ord)]
pub struct Place {
    /// The log.
    pub log: u32,
    /// The line.
    pub line: u32,
}

/// A line that delivers a message.
#[derive(Clone, Copy, Debug, Drop)]
pub struct Delivery {
    /// How many deliveries stand before the message.
    pub at: u64,
    /// The line.
    pub place: Place,
}
