//! Lines at which logs wait.

use crate::stand::Stand;
use ct_names::Member;

/// The next line of a log behind lines of all logs, and why it is not taken there.
#[derive(Drop)]
pub struct StoppedLine {
    /// Whose log it is.
    pub member: Member,
    /// The line's place in that log, counted from 0.
    pub place: usize,
    pub stand: Stand,
    /// Of a line that waits for another log: the place there of the line that would send what it receives; None where none is found.
    pub sender: Option<usize>,
}
