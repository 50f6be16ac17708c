//! Deliver: the member delivers the decision of its open instance, and closes it. Follow: the member begins its next
//! instance, delivers its decision, and closes it at once.

ghost use Rattle.std.specs.Prelude.{◌≡◌, ◌≤◌, IfErr, IfOk, IfSome, IsSome, OnErr, OnOk, option_map};
ghost use Rattle.ct_model.specs.Cause.{cause};
ghost use Rattle.ct_world.specs.Closing.{closing_step};
ghost use Rattle.ct_world.specs.Kept.{delivery_cause, HasRoom, IsSound, IsVerdict, MakesRoom, rehearsal_of};
ghost use Rattle.ct_world.specs.Posting.{HasPosted, IsRefusedByBoard, IsSet};
ghost use Rattle.ct_world.specs.World.{IsDone};

use super::preparing::{join, reserve};
use crate::closing::Closing;
use crate::kept::Kept;
use crate::prepared::Prepared;
use crate::seat::Seat;
use ct_abcast::Batch;
use ct_board::{Board, Receipt};
use ct_model::Step;
use ct_names::{Instance, Limit, MAX_INSTANCES, Member, Refusal, ValueId};

impl Kept {
    pub(super) fn cause_of_deliver(&self, member: Member) -> Result<(), Refusal>
        requires { IsSound self.now }
        ensures { IsVerdict (cause (rehearsal_of self.now) (Step.Deliver member)) result }
    {
        let seat = self.actor(member)?;
        if seat.instances.current().is_none() {
            return Err(Refusal::Idle);
        }
        self.cause_of_delivery(seat, seat.instances.last())
    }

    pub(super) fn cause_of_follow(&self, member: Member) -> Result<(), Refusal>
        requires { IsSound self.now }
        ensures { IsVerdict (cause (rehearsal_of self.now) (Step.Follow member)) result }
    {
        let seat = self.actor(member)?;
        if seat.instances.current().is_some() {
            return Err(Refusal::Busy);
        }
        self.cause_of_delivery(seat, seat.instances.last() + 1)
    }

    // Why the decision of the instance is not delivered at the seat: it is not there, or a limit would be passed.
    fn cause_of_delivery(&self, seat: &Seat, instance: Instance) -> Result<(), Refusal>
        requires { IsSound self.now }
        ensures { IsVerdict (delivery_cause (rehearsal_of self.now) seat.now instance) result }
    {
        if seat.instances.decided(instance).is_none() {
            return Err(Refusal::Undecided);
        }
        if instance > MAX_INSTANCES {
            return Err(Refusal::Full(Limit::Instances));
        }
        if seat.caster.batches() >= self.cells as usize {
            return Err(Refusal::Full(Limit::Cells));
        }
        self.overflow(0)
    }

    fn cause_of_closing(&self, closing: Closing, member: Member) -> Result<(), Refusal>
        requires { IsSound self.now }
        ensures { IsVerdict (cause (rehearsal_of self.now) (closing_step closing member)) result }
    {
        match closing {
            Closing::Open => self.cause_of_deliver(member),
            Closing::Next => self.cause_of_follow(member),
        }
    }

    pub(super) fn prepare_closing(
        &mut self,
        closing: Closing,
        member: Member,
    ) -> Result<Prepared, Refusal>
        requires { IsSound self.old }
        ensures { MakesRoom self.old (closing_step closing member) self.new result }
    {
        self.cause_of_closing(closing, member)?;
        let posted = self.foremost().caster.batches();
        reserve(&mut self.steps, &mut self.network)?;
        let seat = &mut self.seats[member as usize - 1];
        let instance = closing.instance(seat.instances.last());
        match seat.prepare_delivery(self.alloc, &self.book, instance, posted) {
            Ok(made) => Ok(Prepared::Close(closing, member, made.0, made.1)),
            Err(_) => Err(Refusal::OutOfMemory),
        }
    }

    // Does the step, which sends nothing. The board is refused before anything is done, and nothing changes then.
    pub(super) fn close(
        &mut self,
        board: &Board,
        closing: Closing,
        member: Member,
        number: ValueId,
        batch: Option<Box<Batch>>,
    ) -> Result<Option<Receipt>, Refusal>
        requires sound { IsSound self.old }
        requires ready { HasRoom self.old (Prepared.Close closing member number batch) }
        ensures done { OnOk result (IsDone (rehearsal_of self.old) (closing_step closing member) (rehearsal_of self.new) 0) }
        ensures posted { IfOk result (λ receipt. HasPosted board.now (rehearsal_of self.old) (rehearsal_of self.new) receipt) }
        ensures refusal { IfErr result (λ refusal. IsRefusedByBoard (rehearsal_of self.old) (closing_step closing member) refusal) }
        ensures err { OnErr result (self.new ≡ self.old) }
        ensures sound { IsSound self.new }
    {
        let receipt = post(board, batch)?;
        let seat = &mut self.seats[member as usize - 1];
        seat.close(closing, self.book.get(number).unwrap());
        join(&mut self.steps, closing.step(member));
        Ok(receipt)
    }
}

// Sets the cell at the number of the batch's instance less 1 to the batch, if there is one.
fn post(board: &Board, batch: Option<Box<Batch>>) -> Result<Option<Receipt>, Refusal>
    requires { IfSome batch (λ b. 1 ≤ b.value.instance) }
    ensures ok { IfOk result (λ receipt. IsSet board.now (option_map (λ b. b.value) batch) receipt) }
    ensures some { OnErr result (IsSome batch) }
    ensures refusal { IfErr result (λ refusal. refusal ≡ Refusal.Board) }
{
    let Some(batch) = batch else {
        return Ok(None);
    };
    let place = batch.instance() as usize - 1;
    match board.post(place, batch) {
        Ok(receipt) => Ok(Some(receipt)),
        Err(_) => Err(Refusal::Board),
    }
}
