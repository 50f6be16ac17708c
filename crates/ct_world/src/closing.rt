//! The two ways to deliver a decision.

ghost use Rattle.std.specs.Prelude.{◌≡◌, ◌≤◌};
ghost use Rattle.ct_world.specs.Closing.{closed_instance, closing_step};

use ct_model::Step;
use ct_names::{Instance, MAX_INSTANCES, Member};

/// Which instance a member closes, as it delivers that instance's decision.
#[derive(Clone, Copy)]
pub(crate) enum Closing {
    /// The one that it has open, by a Deliver.
    Open,
    /// Its next one, by a Follow: none is open, and it begins and closes that one at once.
    Next,
}

impl Closing {
    /// The step.
    pub(crate) fn step(self, member: Member) -> Step
        ensures { result ≡ closing_step self member }
    {
        match self {
            Closing::Open => Step::Deliver(member),
            Closing::Next => Step::Follow(member),
        }
    }

    /// The instance that is closed, where this is the last one begun.
    pub(crate) fn instance(self, last: Instance) -> Instance
        requires { last ≤ MAX_INSTANCES }
        ensures { result ≡ closed_instance self last }
    {
        match self {
            Closing::Open => last,
            Closing::Next => last + 1,
        }
    }
}
