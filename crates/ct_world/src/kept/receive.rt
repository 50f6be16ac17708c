//! Receive: an envelope leaves the line; what comes for the first time from another is relayed to all.

ghost use Rattle.std.specs.Prelude.{◌≡◌, Some, IfErr, IfOk, MatchResult, unwrap_or};
ghost use Rattle.ct_model.specs.Cause.{cause};
ghost use Rattle.ct_world.specs.Kept.{Does, DoesAtOnce, HasRoom, IsArrival, IsSound, IsVerdict, MakesRoom, rehearsal_of};

use super::preparing::{join, reserve};
use crate::arrival::Arrival;
use crate::kept::Kept;
use crate::prepared::Prepared;
use ct_model::Step;
use ct_names::{Member, Refusal, Serial};

impl Kept {
    pub(super) fn cause_of_receive(&self, member: Member, serial: Serial) -> Result<(), Refusal>
        requires { IsSound self.now }
        ensures { IsVerdict (cause (rehearsal_of self.now) (Step.Receive member serial)) result }
    {
        match self.find_received(member, serial) {
            Ok(_) => Ok(()),
            Err(refusal) => Err(refusal),
        }
    }

    // The envelope, or why the step is not allowed.
    #[inline(always)]
    fn find_received(&self, member: Member, serial: Serial) -> Result<Arrival, Refusal>
        requires { IsSound self.now }
        ensures { MatchResult result (IsArrival self.now member serial)
            (λ refusal. cause (rehearsal_of self.now) (Step.Receive member serial) ≡ Some refusal) }
    {
        let seat = self.actor(member)?;
        let Some(place) = self.network.find(member, serial) else {
            return Err(Refusal::NotWaiting);
        };
        let envelope = self.network.envelope(serial).unwrap();
        let new = seat.is_new(&envelope.wire);
        if seat.passes_on(self.group, &envelope.wire, new) {
            self.overflow(self.seats.len())?;
        } else {
            self.overflow(0)?;
        }
        Ok(Arrival {
            place,
            to: envelope.to,
            wire: envelope.wire,
            new,
        })
    }

    // The envelope, with the room to receive it.
    #[inline(always)]
    fn ready_to_receive(&mut self, member: Member, serial: Serial) -> Result<Arrival, Refusal>
        requires { IsSound self.old }
        ensures same { rehearsal_of self.new ≡ rehearsal_of self.old }
        ensures sound { IsSound self.new }
        ensures room { IfOk result (λ a. HasRoom self.new (Prepared.Receive member serial a.place)) }
        ensures arrival { IfOk result (IsArrival self.new member serial) }
        ensures err { IfErr result (λ refusal. refusal
            ≡ unwrap_or (cause (rehearsal_of self.old) (Step.Receive member serial)) Refusal.OutOfMemory) }
    {
        let Arrival {
            place,
            to,
            wire,
            new,
        } = self.find_received(member, serial)?;
        reserve(&mut self.steps, &mut self.network)?;
        let seat = &mut self.seats[member as usize - 1];
        match seat.prepare_receive(&wire, new) {
            Ok(()) => Ok(Arrival {
                place,
                to,
                wire,
                new,
            }),
            Err(_) => Err(Refusal::OutOfMemory),
        }
    }

    pub(super) fn prepare_receive(
        &mut self,
        member: Member,
        serial: Serial,
    ) -> Result<Prepared, Refusal>
        requires { IsSound self.old }
        ensures { MakesRoom self.old (Step.Receive member serial) self.new result }
    {
        match self.ready_to_receive(member, serial) {
            Ok(Arrival { place, .. }) => Ok(Prepared::Receive(member, serial, place)),
            Err(refusal) => Err(refusal),
        }
    }

    // Does the step, and says how many envelopes it sent.
    pub(super) fn receive(&mut self, member: Member, serial: Serial, place: usize) -> u32
        requires sound { IsSound self.old }
        requires ready { HasRoom self.old (Prepared.Receive member serial place) }
        ensures { Does self.old (Step.Receive member serial) self.new result }
    {
        let envelope = self.network.envelope(serial).unwrap();
        let new = self.seats[member as usize - 1].is_new(&envelope.wire);
        let arrival = Arrival {
            place,
            to: envelope.to,
            wire: envelope.wire,
            new,
        };
        self.take_in(member, serial, arrival)
    }

    // Receives it, and says how many envelopes that sent.
    #[inline(always)]
    fn take_in(&mut self, member: Member, serial: Serial, arrival: Arrival) -> u32
        requires sound { IsSound self.old }
        requires ready { HasRoom self.old (Prepared.Receive member serial arrival.place) }
        requires arrival { IsArrival self.old member serial arrival }
        ensures { Does self.old (Step.Receive member serial) self.new result }
    {
        let seat = &mut self.seats[member as usize - 1];
        let mail = seat.receive(self.group, arrival.wire, arrival.new);
        self.network.leave(member, arrival.place);
        let sent = self.network.post(mail);
        join(&mut self.steps, Step::Receive(member, serial));
        sent
    }

    // Does the step where it is allowed and memory is given: as `prepare_receive` and `receive`, but looks at the envelope once.
    #[inline(always)]
    pub(super) fn receive_at_once(&mut self, member: Member, serial: Serial) -> Result<u32, Refusal>
        requires { IsSound self.old }
        ensures { DoesAtOnce self.old (Step.Receive member serial) self.new result }
    {
        match self.ready_to_receive(member, serial) {
            Ok(arrival) => Ok(self.take_in(member, serial, arrival)),
            Err(refusal) => Err(refusal),
        }
    }
}
