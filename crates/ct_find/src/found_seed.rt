//! What is told of a walk that is found.

ghost use Rattle.std.specs.Prelude.{Some};
ghost use Rattle.ct_find.specs.Texts.{seed_line};

use std::fmt;

/// The seed of a walk that was looked for, and how many steps it has. Its text is the line for standard error.
#[derive(Clone, Copy, Debug, Drop, PartialEq, Eq)]
pub struct FoundSeed {
    /// The seed.
    pub seed: u32,
    /// How many steps the walk has.
    pub steps: usize,
}

impl fmt::Display for FoundSeed {
    ghost output = { λ found. Some (seed_line found) };

    fn fmt<W: fmt::Write>(&self, f: &mut fmt::Formatter<W>) -> fmt::Result {
        write!(f, "seed {}: {} steps", self.seed, self.steps)
    }
}
