//! What a member gets.

ghost use Rattle.std.specs.Prelude.{◌≡◌, ◌≤◌, true};
ghost use Rattle.ct_model.specs.declared.wire.Wire.TheVariants.{Data, Dec};
ghost use Rattle.ct_relay.specs.Taken.{with_id};
ghost use Rattle.ct_model.specs.Counted.{NamesSomebody};
ghost use Rattle.ct_world.specs.Seats.{CanReceive, HasReceived, HasSameRest, ids_with, is_new, is_passed_on, passed_on, received_with};

use crate::seat::Seat;
use ct_names::{Group, Instance, Message, Round};
use ct_relay::RelayId;
use ct_rounds::{Mail, Wire};

impl Seat {
    /// Whether the wire is a message or a decision that comes for the first time.
    pub(crate) fn is_new(&self, wire: &Wire) -> bool
        ensures { result ≡ is_new self.now.relay wire.now }
    {
        match *wire {
            Wire::Data(message) => self.relay.first(name_of(&message)),
            Wire::Dec {
                instance,
                round,
                ..
            } => self.relay.first(RelayId::Dec { instance, round }),
            _ => false,
        }
    }

    /// Whether the member passes the wire on, which is new to it or not: it gets it for the first time, and didn't send it
    /// to all before.
    #[inline(always)]
    pub(crate) fn passes_on(&self, group: Group, wire: &Wire, new: bool) -> bool
        requires { new ≡ is_new self.now.relay wire.now }
        ensures { result ≡ is_passed_on group self.now.relay wire.now }
    {
        match *wire {
            Wire::Data(message) => new && message.origin() != self.relay.me(),
            Wire::Dec { round, .. } => new && group.coordinator(round) != self.relay.me(),
            _ => false,
        }
    }

    /// The member gets the wire, which is new to it or not, and answers what it sends.
    #[inline(always)]
    pub(crate) fn receive(&mut self, group: Group, wire: Wire, new: bool) -> Mail
        requires new { new ≡ is_new self.old.relay wire }
        requires room { CanReceive self.old wire }
        requires sender { NamesSomebody wire }
        ensures received { HasReceived self.old wire self.new }
        ensures mail { result ≡ passed_on group self.old.relay wire }
    {
        self.instances.note(&wire);
        let relay = match wire {
            Wire::Data(message) => new && self.receive_message(message),
            Wire::Dec {
                instance,
                round,
                ..
            } => new && self.receive_decision(group, instance, round),
            _ => false,
        };
        if relay { Mail::All(wire) } else { Mail::Nobody }
    }

    // The message is received where it comes for the first time. Whether it is passed on.
    fn receive_message(&mut self, message: Message) -> bool
        requires relay { is_new self.old.relay (Data message) ≡ true → self.old.relay.has_room ≡ true }
        requires room { is_new self.old.relay (Data message) ≡ true → 1 ≤ self.old.caster.room }
        ensures ids { self.new.relay.ids ≡ ids_with self.old.relay.ids (Data message) }
        ensures received { self.new.caster.received ≡ received_with self.old.relay.ids self.old.caster.received (Data message) }
        ensures rest { HasSameRest self.old self.new }
        ensures relayed { result ≡ is_passed_on 0 self.old.relay (Data message) }
    {
        let action = self.relay.take(name_of(&message), message.origin());
        if action.deliver {
            self.caster.receive(message);
        }
        action.relay
    }

    // The decision is taken. Whether it is passed on.
    fn receive_decision(&mut self, group: Group, instance: Instance, round: Round) -> bool
        requires relay { is_new self.old.relay (Dec instance round 0) ≡ true → self.old.relay.has_room ≡ true }
        ensures ids { self.new.relay.ids ≡ with_id self.old.relay.ids (RelayId.Dec instance round) }
        ensures received { self.new.caster ≡ self.old.caster }
        ensures rest { HasSameRest self.old self.new }
        ensures relayed { result ≡ is_passed_on group self.old.relay (Dec instance round 0) }
    {
        let action = self
            .relay
            .take(RelayId::Dec { instance, round }, group.coordinator(round));
        action.relay
    }
}

// The name of a message.
fn name_of(message: &Message) -> RelayId
    ensures { result ≡ RelayId.Data message.now.origin message.now.number }
{
    RelayId::Data {
        origin: message.origin(),
        number: message.number(),
    }
}
