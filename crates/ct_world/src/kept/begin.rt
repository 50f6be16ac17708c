//! Begin: the member opens its next instance, and proposes the first of what it received and didn't deliver.

ghost use Rattle.ct_model.specs.Cause.{cause};
ghost use Rattle.ct_world.specs.Kept.{Does, HasRoom, IsSound, IsVerdict, MakesRoom, rehearsal_of};

use super::preparing::{join, reserve};
use crate::kept::Kept;
use crate::prepared::Prepared;
use ct_model::Step;
use ct_names::{Limit, MAX_INSTANCES, Member, MsgSet, Refusal};

impl Kept {
    pub(super) fn cause_of_begin(&self, member: Member) -> Result<(), Refusal>
        requires { IsSound self.now }
        ensures { IsVerdict (cause (rehearsal_of self.now) (Step.Begin member)) result }
    {
        let seat = self.actor(member)?;
        if seat.instances.current().is_some() {
            return Err(Refusal::Busy);
        }
        if !seat.caster.has_undelivered() {
            return Err(Refusal::Nothing);
        }
        if seat.instances.last() >= MAX_INSTANCES {
            return Err(Refusal::Full(Limit::Instances));
        }
        self.overflow(0)
    }

    pub(super) fn prepare_begin(&mut self, member: Member) -> Result<Prepared, Refusal>
        requires { IsSound self.old }
        ensures { MakesRoom self.old (Step.Begin member) self.new result }
    {
        self.cause_of_begin(member)?;
        reserve(&mut self.steps, &mut self.network)?;
        let Ok(()) = self.book.prepare() else {
            return Err(Refusal::OutOfMemory);
        };
        let seat = &mut self.seats[member as usize - 1];
        match seat.prepare_begin(self.alloc, self.bound) {
            Ok(proposal) => Ok(Prepared::Begin(member, proposal)),
            Err(_) => Err(Refusal::OutOfMemory),
        }
    }

    // Does the step, which sends nothing.
    pub(super) fn begin(&mut self, member: Member, proposal: MsgSet) -> u32
        requires sound { IsSound self.old }
        requires ready { HasRoom self.old (Prepared.Begin member proposal) }
        ensures { Does self.old (Step.Begin member) self.new result }
    {
        let value = self.book.add(proposal).unwrap();
        let seat = &mut self.seats[member as usize - 1];
        let next = seat.instances.last() + 1;
        seat.instances.open(next, value);
        seat.caster.begin();
        join(&mut self.steps, Step::Begin(member));
        0
    }
}
