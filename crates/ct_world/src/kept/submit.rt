//! Submit: the member's next message goes to all.

ghost use Rattle.ct_model.specs.Cause.{cause};
ghost use Rattle.ct_world.specs.Kept.{Does, HasRoom, IsSound, IsVerdict, MakesRoom, rehearsal_of};

use super::preparing::join;
use crate::kept::Kept;
use crate::prepared::Prepared;
use ct_model::Step;
use ct_names::{Command, Limit, MAX_SUBMISSIONS, Member, Message, Refusal};
use ct_rounds::{Mail, Wire};

impl Kept {
    pub(super) fn cause_of_submit(&self, member: Member, command: &Command) -> Result<(), Refusal>
        requires { IsSound self.now }
        ensures { IsVerdict (cause (rehearsal_of self.now) (Step.Submit member command.now)) result }
    {
        let seat = self.actor(member)?;
        if !command.good() {
            return Err(Refusal::BadCommand);
        }
        if seat.submitted >= MAX_SUBMISSIONS {
            return Err(Refusal::Full(Limit::Submissions));
        }
        self.overflow(self.seats.len())
    }

    pub(super) fn prepare_submit(
        &mut self,
        member: Member,
        command: Command,
    ) -> Result<Prepared, Refusal>
        requires { IsSound self.old }
        ensures { MakesRoom self.old (Step.Submit member command) self.new result }
    {
        self.cause_of_submit(member, &command)?;
        self.plain(Prepared::Submit(member, command))
    }

    // Does the step, and says how many envelopes it sent.
    pub(super) fn submit(&mut self, member: Member, command: Command) -> u32
        requires sound { IsSound self.old }
        requires ready { HasRoom self.old (Prepared.Submit member command) }
        ensures { Does self.old (Step.Submit member command) self.new result }
    {
        let seat = &mut self.seats[member as usize - 1];
        seat.submitted += 1;
        let message = Message::new(member, seat.submitted, command).unwrap();
        let sent = self.network.post(Mail::All(Wire::Data(message)));
        join(&mut self.steps, Step::Submit(member, command));
        sent
    }
}
