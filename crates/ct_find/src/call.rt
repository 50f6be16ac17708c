//! What a command line asks of a search.

use ct_grammar::{Goal, Text};
use ct_walk::{Seeds, WalkOptions};

/// What the words after `find` ask for.
#[derive(Drop)]
pub struct FindCall {
    /// The options of the walks but for their seed.
    pub options: WalkOptions,
    /// What a walk has to show.
    pub goal: Goal,
    /// The same in the words that were given.
    pub text: Text,
    /// The seeds of the walks.
    pub seeds: Seeds,
    /// How many threads there are, 1 to 64; None for four for each processor.
    pub jobs: Option<u8>,
}
