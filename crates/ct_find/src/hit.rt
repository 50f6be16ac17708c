//! Seeds whose walks show what is looked for.

use ct_walk::WalkSize;

/// A seed whose walk shows the goal.
#[derive(Clone, Copy, Debug, Drop, PartialEq, Eq)]
pub struct Hit {
    /// The seed.
    pub seed: u32,
    /// How far its walk goes.
    pub size: WalkSize,
}
