//! Lines of logs that say something.

use crate::act::Act;
use crate::place::Place;

/// A line of a log.
#[derive(Clone, Copy, Drop)]
pub(crate) struct Line<'a> {
    /// Where it stands.
    pub place: Place,
    /// How many deliveries its process has before it.
    pub at: u64,
    /// What the process did.
    pub act: Act,
    /// The word of a message or of a state.
    pub word: &'a str,
}
