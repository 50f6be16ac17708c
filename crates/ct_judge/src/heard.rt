//! What is left of a session that is over.

use crate::judge::Judge;

/// What is left of a session whose input came to its end.
#[derive(Drop)]
pub struct Heard {
    /// The judge.
    pub judge: Judge,
    /// Whether a line was refused.
    pub refused: bool,
}
