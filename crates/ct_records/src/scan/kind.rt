//! What most steps are.

ghost use Rattle.std.specs.Prelude.{◌≡◌};
ghost use Rattle.ct_records.specs.Quick.{step_of};

use ct_model::Step;
use ct_names::{Member, Serial};

/// A step of a member and a serial, as most are.
#[derive(Clone, Copy)]
pub(crate) enum Kind {
    Receive,
    Postpone,
}

impl Kind {
    /// The step of the member and the serial.
    #[inline(always)]
    pub(crate) fn step(self, p: Member, serial: Serial) -> Step
        ensures { result ≡ step_of self p serial }
    {
        match self {
            Kind::Receive => Step::Receive(p, serial),
            Kind::Postpone => Step::Postpone(p, serial),
        }
    }
}
