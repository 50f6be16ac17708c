//! What is read of lines.

use crate::act::Act;
use crate::no_line::NoLine;

/// What is read of a line.
#[derive(Clone, Copy, Drop)]
pub(crate) enum Event<'a> {
    /// It says nothing.
    Blank,
    /// It says this, with the word of a message or of a state, or none.
    Says(Act, &'a str),
    /// It stands in no log.
    No(NoLine),
}
