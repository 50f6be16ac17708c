//! What stands in the way, and its text.

use ct_settled::Hindrance;

/// What stands in the way of all being done where the turns of a run came to their end, and its text.
#[derive(Debug, Drop)]
pub struct Obstacle {
    /// What it is.
    pub hindrance: Hindrance,
    /// The clause that tells it.
    pub text: String,
}
