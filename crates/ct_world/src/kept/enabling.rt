//! Who may take a step, and the limits that any step may pass.

ghost use Rattle.std.specs.Prelude.{◌≤◌, MatchResult};
ghost use Rattle.ct_model.specs.Cause.{overflow};
ghost use Rattle.ct_world.specs.Kept.{IsAbsent, IsActor, IsSound, IsVerdict, rehearsal_of};

use crate::kept::Kept;
use crate::seat::Seat;
use ct_names::{Limit, MAX_ENVELOPES, MAX_MEMBERS, MAX_STEPS, Member, Refusal};

impl Kept {
    /// What is kept of the member whose step it is.
    pub(crate) fn actor(&self, member: Member) -> Result<&Seat, Refusal>
        requires { IsSound self.now }
        ensures { MatchResult result (λ seat. IsActor (rehearsal_of self.now) member seat.now)
            (λ refusal. IsAbsent (rehearsal_of self.now) member refusal) }
    {
        match self.seat(member) {
            None => Err(Refusal::NoSuchMember),
            Some(seat) => {
                if seat.crashed {
                    Err(Refusal::Crashed)
                } else {
                    Ok(seat)
                }
            }
        }
    }

    // Whether a limit would be passed by sending this many envelopes, or by the step itself.
    pub(super) fn overflow(&self, more: usize) -> Result<(), Refusal>
        requires sound { IsSound self.now }
        requires few { more ≤ MAX_MEMBERS }
        ensures { IsVerdict (overflow (rehearsal_of self.now) more) result }
    {
        if self.network.sent() + more > MAX_ENVELOPES {
            Err(Refusal::Full(Limit::Envelopes))
        } else if self.steps.len() + 1 > MAX_STEPS {
            Err(Refusal::Full(Limit::Steps))
        } else {
            Ok(())
        }
    }
}
