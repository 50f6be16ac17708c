//! Lines that contradict lines before them.

use crate::place::Delivery;
use crate::told::Told;

/// What a line contradicts.
#[derive(Debug, Drop)]
pub enum Clash {
    /// A line that delivers another message at its position, or that tells of another state there.
    Other(Told),
    /// A line that delivers its message at another position.
    Again(Delivery),
    /// It takes over a snapshot of fewer deliveries than stand before it.
    Back,
}
