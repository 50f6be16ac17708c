//! Lines.

use crate::given::Given;
use crate::play::Play;

/// A line of a schedule. A word that begins with `#` and no digit behind it begins a comment.
#[derive(Drop)]
pub enum Line {
    /// Nothing stands before the comment.
    Blank,
    /// One of the numbers of the group.
    Given(Given),
    /// What is played in a world.
    Play(Play),
}
