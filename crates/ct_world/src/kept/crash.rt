//! Crash: the member takes no further step.

ghost use Rattle.ct_model.specs.Cause.{cause};
ghost use Rattle.ct_world.specs.Kept.{Does, HasRoom, IsSound, IsVerdict, MakesRoom, rehearsal_of};

use super::preparing::join;
use crate::kept::Kept;
use crate::prepared::Prepared;
use ct_model::Step;
use ct_names::{Member, Refusal};

impl Kept {
    pub(super) fn cause_of_crash(&self, member: Member) -> Result<(), Refusal>
        requires { IsSound self.now }
        ensures { IsVerdict (cause (rehearsal_of self.now) (Step.Crash member)) result }
    {
        self.actor(member)?;
        self.overflow(0)
    }

    pub(super) fn prepare_crash(&mut self, member: Member) -> Result<Prepared, Refusal>
        requires { IsSound self.old }
        ensures { MakesRoom self.old (Step.Crash member) self.new result }
    {
        self.cause_of_crash(member)?;
        self.plain(Prepared::Crash(member))
    }

    // Does the step, which sends nothing.
    pub(super) fn crash(&mut self, member: Member) -> u32
        requires sound { IsSound self.old }
        requires ready { HasRoom self.old (Prepared.Crash member) }
        ensures { Does self.old (Step.Crash member) self.new result }
    {
        let seat = &mut self.seats[member as usize - 1];
        seat.crashed = true;
        join(&mut self.steps, Step::Crash(member));
        0
    }
}
