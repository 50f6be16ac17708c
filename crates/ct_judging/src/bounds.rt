//! How much of a line, and of a waiting line, a fault shows.

/// How many bytes of a line a fault shows at most; a longer one is not shown.
pub const LONGEST_SHOWN: usize = 200;

/// How many waiting envelopes a fault names at most.
pub const MOST_NAMED: usize = 8;
