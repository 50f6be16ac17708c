//! What is told where a walk doesn't show what is looked for.

ghost use Rattle.std.specs.Prelude.{Some};
ghost use Rattle.ct_walk.specs.Missing.{missed_text};

use crate::came::Came;
use crate::sight::Sight;
use std::fmt;

/// How near a walk came to what it doesn't show. Its text is the line for standard error.
#[derive(Clone, Copy, Debug, Drop, PartialEq, Eq)]
pub struct Missed {
    /// What was looked for, where it is told how near the walk came to it.
    pub sight: Option<Sight>,
    /// The seed of the walk.
    pub seed: u32,
    /// What it came to: the largest round that a member was in, or the largest instance whose decision a member got; 0 for none.
    pub came_to: u32,
}

impl fmt::Display for Missed {
    ghost output = { λ missed. Some (missed_text missed) };

    fn fmt<W: fmt::Write>(&self, f: &mut fmt::Formatter<W>) -> fmt::Result {
        let Missed {
            sight,
            seed,
            came_to,
        } = *self;
        match sight {
            None => write!(f, "seed {seed} does not show it"),
            Some(sight) => {
                let came = Came { sight, to: came_to };
                write!(f, "seed {seed} does not show {sight}: it {came}")
            }
        }
    }
}
