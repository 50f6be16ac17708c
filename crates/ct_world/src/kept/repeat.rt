//! Repeat: a serial that was received or lost comes to the end of its line again.

ghost use Rattle.ct_model.specs.Cause.{cause};
ghost use Rattle.ct_world.specs.Kept.{Does, HasRoom, IsSound, IsVerdict, MakesRoom, rehearsal_of};

use super::preparing::join;
use crate::kept::Kept;
use crate::prepared::Prepared;
use ct_model::Step;
use ct_names::{Member, Refusal, Serial};

impl Kept {
    pub(super) fn cause_of_repeat(&self, member: Member, serial: Serial) -> Result<(), Refusal>
        requires { IsSound self.now }
        ensures { IsVerdict (cause (rehearsal_of self.now) (Step.Repeat member serial)) result }
    {
        self.actor(member)?;
        let Some(envelope) = self.network.envelope(serial) else {
            return Err(Refusal::NotSent);
        };
        if envelope.to != member {
            return Err(Refusal::NotSent);
        }
        if self.network.find(member, serial).is_some() {
            return Err(Refusal::StillWaiting);
        }
        self.overflow(0)
    }

    pub(super) fn prepare_repeat(
        &mut self,
        member: Member,
        serial: Serial,
    ) -> Result<Prepared, Refusal>
        requires { IsSound self.old }
        ensures { MakesRoom self.old (Step.Repeat member serial) self.new result }
    {
        self.cause_of_repeat(member, serial)?;
        self.plain(Prepared::Repeat(member, serial))
    }

    // Does the step, which sends nothing.
    pub(super) fn repeat(&mut self, member: Member, serial: Serial) -> u32
        requires sound { IsSound self.old }
        requires ready { HasRoom self.old (Prepared.Repeat member serial) }
        ensures { Does self.old (Step.Repeat member serial) self.new result }
    {
        self.network.put_back(member, serial);
        join(&mut self.steps, Step::Repeat(member, serial));
        0
    }
}
