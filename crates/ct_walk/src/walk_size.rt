//! How far walks go.

use ct_names::Round;

/// How far a walk goes.
#[derive(Clone, Copy, Debug, Drop, PartialEq, Eq)]
pub struct WalkSize {
    /// How many steps it has.
    pub steps: usize,
    /// The largest round that a member comes to in it, 0 where none comes to one.
    pub round: Round,
}
