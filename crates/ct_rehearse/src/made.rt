//! What the turns of runs came to.

ghost use Rattle.std.specs.Prelude.{◌≡◌, ◌+◌, ◌^◌, ◌<◌};
ghost use Rattle.ct_rehearse.specs.Plans.{made_after, turns_made};

use crate::outcome::Turn;

/// How many turns came to what.
#[derive(Clone, Copy, Debug, PartialEq, Eq)]
pub struct Made {
    /// The turns whose step the world did.
    pub steps: u64,
    /// The turns that had nothing to try.
    pub resting: u64,
    /// The turns whose step the world refused.
    pub refused: u64,
}

impl Made {
    // No turns.
    pub(crate) fn none() -> Made
        ensures { result ≡ record { steps = 0; resting = 0; refused = 0 } }
    {
        Made {
            steps: 0,
            resting: 0,
            refused: 0,
        }
    }

    // One turn more.
    pub(crate) fn count(&mut self, turn: &Turn)
        requires { turns_made self.old + 1 < 2 ^ 64 }
        ensures { self.new ≡ made_after self.old turn.now }
    {
        match turn {
            Turn::Stepped(_, _) => self.steps += 1,
            Turn::Resting => self.resting += 1,
            Turn::Refused(_) => self.refused += 1,
        }
    }

    // The turns of one more worker.
    pub(crate) fn add(&mut self, other: &Made)
        requires { turns_made self.old + turns_made other.now < 2 ^ 64 }
        ensures { self.new ≡ record {
          steps = self.old.steps + other.now.steps;
          resting = self.old.resting + other.now.resting;
          refused =
              self.old.refused + other.now.refused;
        } }
    {
        self.steps += other.steps;
        self.resting += other.resting;
        self.refused += other.refused;
    }
}
