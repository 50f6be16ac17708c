//! Postpone: a serial moves to the end of its line. Lose: it leaves its line, and is not received.

ghost use Rattle.ct_model.specs.Cause.{cause};
ghost use Rattle.ct_world.specs.Kept.{Does, DoesAtOnce, HasRoom, IsFound, IsSound, IsVerdict, MakesRoom, rehearsal_of};

use super::preparing::{join, reserve};
use crate::kept::Kept;
use crate::prepared::Prepared;
use ct_model::Step;
use ct_names::{Member, Refusal, Serial};

impl Kept {
    pub(super) fn cause_of_line(&self, member: Member, serial: Serial) -> Result<(), Refusal>
        requires { IsSound self.now }
        ensures postponed { IsVerdict (cause (rehearsal_of self.now) (Step.Postpone member serial)) result }
        ensures lost { IsVerdict (cause (rehearsal_of self.now) (Step.Lose member serial)) result }
    {
        self.find_waiting(member, serial)?;
        Ok(())
    }

    // Where the serial stands in the member's line, or why it is not postponed, nor lost.
    fn find_waiting(&self, member: Member, serial: Serial) -> Result<usize, Refusal>
        requires { IsSound self.now }
        ensures postponed { IsFound self.now (Step.Postpone member serial) member serial result }
        ensures lost { IsFound self.now (Step.Lose member serial) member serial result }
    {
        self.actor(member)?;
        let Some(place) = self.network.find(member, serial) else {
            return Err(Refusal::NotWaiting);
        };
        self.overflow(0)?;
        Ok(place)
    }

    pub(super) fn prepare_postpone(
        &mut self,
        member: Member,
        serial: Serial,
    ) -> Result<Prepared, Refusal>
        requires { IsSound self.old }
        ensures { MakesRoom self.old (Step.Postpone member serial) self.new result }
    {
        let place = self.find_waiting(member, serial)?;
        self.plain(Prepared::Postpone(member, serial, place))
    }

    pub(super) fn prepare_lose(
        &mut self,
        member: Member,
        serial: Serial,
    ) -> Result<Prepared, Refusal>
        requires { IsSound self.old }
        ensures { MakesRoom self.old (Step.Lose member serial) self.new result }
    {
        let place = self.find_waiting(member, serial)?;
        self.plain(Prepared::Lose(member, serial, place))
    }

    // Does a Postpone where it is allowed and memory is given.
    #[inline(always)]
    pub(super) fn postpone_at_once(
        &mut self,
        member: Member,
        serial: Serial,
    ) -> Result<u32, Refusal>
        requires { IsSound self.old }
        ensures { DoesAtOnce self.old (Step.Postpone member serial) self.new result }
    {
        let place = self.find_waiting(member, serial)?;
        reserve(&mut self.steps, &mut self.network)?;
        Ok(self.postpone(member, serial, place))
    }

    // Does a Postpone, which sends nothing.
    #[inline(never)]
    pub(super) fn postpone(&mut self, member: Member, serial: Serial, place: usize) -> u32
        requires sound { IsSound self.old }
        requires ready { HasRoom self.old (Prepared.Postpone member serial place) }
        ensures { Does self.old (Step.Postpone member serial) self.new result }
    {
        self.network.postpone(member, place);
        join(&mut self.steps, Step::Postpone(member, serial));
        0
    }

    // Does a Lose, which sends nothing.
    pub(super) fn lose(&mut self, member: Member, serial: Serial, place: usize) -> u32
        requires sound { IsSound self.old }
        requires ready { HasRoom self.old (Prepared.Lose member serial place) }
        ensures { Does self.old (Step.Lose member serial) self.new result }
    {
        self.network.leave(member, place);
        join(&mut self.steps, Step::Lose(member, serial));
        0
    }
}
