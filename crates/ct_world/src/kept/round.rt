//! The steps of a round, which the member takes in its open instance.

ghost use Rattle.ct_model.specs.Cause.{cause};
ghost use Rattle.ct_model.specs.Moves.{step_of};
ghost use Rattle.ct_world.specs.Kept.{Does, HasRoom, IsSound, IsVerdict, MakesRoom, rehearsal_of};

use super::preparing::join;
use crate::kept::Kept;
use crate::prepared::Prepared;
use ct_model::Move;
use ct_names::{Limit, Member, Refusal};

impl Kept {
    pub(super) fn cause_of_round(&self, member: Member, action: Move) -> Result<(), Refusal>
        requires { IsSound self.now }
        ensures { IsVerdict (cause (rehearsal_of self.now) (step_of member action)) result }
    {
        let seat = self.actor(member)?;
        if let Some(refusal) = seat.instances.fault(action) {
            return Err(refusal);
        }
        if seat.instances.passes_rounds(action) {
            return Err(Refusal::Full(Limit::Rounds));
        }
        self.overflow(seat.instances.sent(action))
    }

    pub(super) fn prepare_round(
        &mut self,
        member: Member,
        action: Move,
    ) -> Result<Prepared, Refusal>
        requires { IsSound self.old }
        ensures { MakesRoom self.old (step_of member action) self.new result }
    {
        self.cause_of_round(member, action)?;
        self.plain(Prepared::Round(member, action))
    }

    // Does the step, and says how many envelopes it sent.
    pub(super) fn turn(&mut self, member: Member, action: Move) -> u32
        requires sound { IsSound self.old }
        requires ready { HasRoom self.old (Prepared.Round member action) }
        ensures { Does self.old (step_of member action) self.new result }
    {
        let seat = &mut self.seats[member as usize - 1];
        let mail = seat.instances.take(action);
        let sent = self.network.post(mail);
        join(&mut self.steps, action.by(member));
        sent
    }
}
