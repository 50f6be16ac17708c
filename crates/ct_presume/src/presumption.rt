//! What logs come to whose ends may be lost.

use ct_merge::{LogLine, Verdict};

/// What logs come to whose ends may be lost.
#[derive(Drop)]
pub struct Presumption {
    /// Accepted are the logs with the lines that are presumed; refused or incomplete they are as they were given.
    pub verdict: Verdict,
    /// The logs, member 1's first, with the lines that are presumed behind those that were given.
    pub logs: Vec<Vec<LogLine>>,
}
