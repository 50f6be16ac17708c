//! What a command line asks of walks.

use crate::options::WalkOptions;
use ct_grammar::Goal;

/// What the words after `walk` ask for: to make the walk of these options, until it shows the goal, where there is one, and write its
/// record.
#[derive(Drop)]
pub struct WalkCall {
    /// The options of the walk.
    pub options: WalkOptions,
    /// What it is made until.
    pub until: Option<Goal>,
}

/// Seeds one after the other, the last one too.
#[derive(Clone, Copy, Debug, Drop, PartialEq, Eq)]
pub struct Seeds {
    /// The first seed.
    pub first: u32,
    /// The last seed.
    pub last: u32,
}
