//! What walks come to.

ghost use Rattle.std.specs.Prelude.{Some};
ghost use Rattle.ct_walk.specs.Missing.{came_text};

use crate::sight::Sight;
use std::fmt;

// What a walk comes to of what is looked for.
#[derive(Clone, Copy, Drop)]
pub(crate) struct Came {
    // What is looked for.
    pub(crate) sight: Sight,
    // The largest round, or the largest instance that was decided; 0 for none.
    pub(crate) to: u32,
}

impl fmt::Display for Came {
    ghost output = { λ came. Some (came_text came.sight came.to) };

    fn fmt<W: fmt::Write>(&self, f: &mut fmt::Formatter<W>) -> fmt::Result {
        match (self.sight, self.to) {
            (Sight::Decided(_), 0) => f.write_str("decided none"),
            (Sight::Decided(_), last) => write!(f, "decided {last}"),
            (Sight::Round(_), 0) => f.write_str("came to no round"),
            (Sight::Round(_), round) => write!(f, "came to round {round}"),
        }
    }
}
