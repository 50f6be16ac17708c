//! The smallest of several runs.

ghost use Rattle.std.specs.Prelude.{Some};
ghost use Rattle.ct_best.specs.Faults.{best_text};

use crate::smaller_walk::SmallerWalk;
use ct_find::Again;
use ct_shrink::ShrinkOptions;
use std::fmt;

/// How the smallest run is looked for.
#[derive(Clone, Copy, Debug, Drop, PartialEq, Eq)]
pub struct BestOptions {
    /// How many of the first walks that show the goal are made smaller, 1 or more.
    pub count: u32,
    /// How many trials are made for each of them, and as what the smallest run is written.
    pub shrink: ShrinkOptions,
}

/// What is told of the smallest run. Its text is the line for standard error.
#[derive(Drop)]
pub struct Best {
    /// The walks that were made smaller, by their seeds.
    pub walks: Vec<SmallerWalk>,
    /// The one that the smallest run is left of.
    pub smallest: SmallerWalk,
    /// The words that make the walk again.
    pub again: Again,
}

impl fmt::Display for Best {
    ghost output = { λ best. Some (best_text best) };

    fn fmt<W: fmt::Write>(&self, f: &mut fmt::Formatter<W>) -> fmt::Result {
        write!(
            f,
            "seed {}, best of {}: {}",
            self.smallest.seed,
            self.walks.len(),
            self.smallest.summary
        )
    }
}
