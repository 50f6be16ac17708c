//! What is told of walks that were made smaller.

ghost use Rattle.std.specs.Prelude.{Some};
ghost use Rattle.ct_best.specs.Faults.{walk_text};

use ct_shrink::Summary;
use std::fmt;

/// What is told of the run that is left of the walk of a seed. Its text is a line for standard error.
#[derive(Clone, Copy, Debug, Drop, PartialEq, Eq)]
pub struct SmallerWalk {
    /// The seed.
    pub seed: u32,
    /// How many steps the walk and the run have, and how many trials were made for it.
    pub summary: Summary,
}

impl SmallerWalk {
    ghost use Rattle.std.specs.Prelude.{◌≡◌};
    ghost use Rattle.ct_best.specs.Best.{is_less};

    // Whether it has fewer steps than the other one; of as many, whether its seed is less.
    pub(crate) fn is_less(&self, other: &SmallerWalk) -> bool
        ensures { result ≡ is_less self.now other.now }
    {
        let steps = self.summary.left;
        let others = other.summary.left;
        steps < others || (steps == others && self.seed < other.seed)
    }
}

impl fmt::Display for SmallerWalk {
    ghost output = { λ walk. Some (walk_text walk) };

    fn fmt<W: fmt::Write>(&self, f: &mut fmt::Formatter<W>) -> fmt::Result {
        let SmallerWalk { seed, summary } = *self;
        if summary.is_stopped {
            write!(f, "seed {seed}: {} steps, stopped", summary.left)
        } else {
            write!(f, "seed {seed}: {} steps", summary.left)
        }
    }
}
