//! What is known of a world. No call takes memory.

ghost use Rattle.std.specs.Prelude.{◌≡◌, ◌≤◌, ◌&&◌, ◌==◌, length, map, is_some, position, IfSome, option_and_then, option_map};
ghost use Rattle.ct_names.specs.Group.{is_member};
ghost use Rattle.ct_model.specs.Cause.{order};
ghost use Rattle.ct_model.specs.Mapped.{without_value};
ghost use Rattle.ct_model.specs.Received.{decided, received_by};
ghost use Rattle.ct_model.specs.Rehearsal.{state_of, line_of};
ghost use Rattle.ct_model.specs.State.{is_crashed, delivered, at_serial};
ghost use Rattle.ct_model.specs.Wire.{value_of};
ghost use Rattle.ct_table.specs.Table.{table};
ghost use Rattle.ct_world.specs.Kept.{IsSeatOf};
ghost use Rattle.ct_world.specs.World.{member_of, of_member, if_member};

use crate::letter::Letter;
use crate::seat::Seat;
use crate::world::World;
use ct_model::Phase;
use ct_names::{Instance, MAX_CELLS, MAX_ENVELOPES, Member, Message, Round, Serial};
use ct_table::Table;

impl World {
    /// How many envelopes were sent.
    pub fn sent(&self) -> u32
        ensures value { result ≡ length (state_of self.now.rehearsal).sent }
        ensures few { result ≤ MAX_ENVELOPES }
    {
        self.kept.network.sent() as u32
    }

    /// The envelope of a serial, without its value; None where that was not sent.
    pub fn letter(&self, serial: Serial) -> Option<Letter>
        ensures { result ≡ option_map without_value (at_serial (state_of self.now.rehearsal).sent serial) }
    {
        match self.kept.network.envelope(serial) {
            Some(envelope) => Some(envelope.without_value()),
            None => None,
        }
    }

    /// The value that the envelope of a serial carries, in the order of messages; None where that was not sent, or
    /// carries none.
    pub fn value(&self, serial: Serial) -> Option<&[Message]>
        ensures { option_map (λ list. list.now) result ≡ option_and_then (λ e. value_of e.wire)
            (at_serial (state_of self.now.rehearsal).sent serial) }
    {
        let envelope = self.kept.network.envelope(serial)?;
        let set = self.kept.book.get(envelope.wire.value()?)?;
        Some(set.items())
    }

    /// The serials that wait at a member, in the order of its line; None for no member of the group.
    pub fn waiting(&self, member: Member) -> Option<&[Serial]>
        ensures { option_map (λ line. line.now) result ≡ of_member self.now.rehearsal member (line_of self.now.rehearsal member) }
    {
        self.kept.network.line(member)
    }

    /// The place of a serial in a member's line, counted from 0; None where it doesn't wait there, and for no member of the group.
    pub fn place(&self, member: Member, serial: Serial) -> Option<usize>
        ensures { result ≡ if_member self.now.rehearsal member (position (λ k. k == serial) (line_of self.now.rehearsal member)) }
    {
        self.kept.network.find(member, serial)
    }

    /// The messages that a member received, in order of first receipt; None for no member of the group.
    pub fn received(&self, member: Member) -> Option<&[Message]>
        ensures { option_map (λ list. list.now) result ≡ of_member self.now.rehearsal member
            (received_by (state_of self.now.rehearsal) member) }
    {
        let seat = self.seat(member)?;
        Some(seat.caster.received())
    }

    /// The messages that a member delivered, in order; None for no member of the group.
    pub fn delivered(&self, member: Member) -> Option<&[Message]>
        ensures { option_map (λ list. list.now) result ≡ of_member self.now.rehearsal member
            (delivered (member_of self.now.rehearsal member)) }
    {
        let seat = self.seat(member)?;
        Some(seat.caster.delivered())
    }

    /// The registers after the commands of what a member delivered, in order; None for no member of the group.
    pub fn table(&self, member: Member) -> Option<&Table>
        ensures { option_map (λ table. table.now) result ≡ of_member self.now.rehearsal member
            (table (delivered (member_of self.now.rehearsal member))) }
    {
        let seat = self.seat(member)?;
        Some(&seat.table)
    }

    /// The decision that a member got for an instance, begun or not, in the order of messages; None for no member of
    /// the group, and where it got none.
    pub fn decided(&self, member: Member, instance: Instance) -> Option<&[Message]>
        ensures { option_map (λ list. list.now) result ≡ if_member self.now.rehearsal member
            (decided (member_of self.now.rehearsal member).got instance) }
    {
        let seat = self.seat(member)?;
        let set = self.kept.book.get(seat.instances.decided(instance)?)?;
        Some(set.items())
    }

    /// Whether the member is one of the group and has crashed.
    pub fn crashed(&self, member: Member) -> bool
        ensures { result ≡ (is_member self.now.rehearsal.setting.members member && is_crashed (state_of self.now.rehearsal) member) }
    {
        match self.seat(member) {
            Some(seat) => seat.crashed,
            None => false,
        }
    }

    /// The last instance that a member began, 0 before the first, and whether it is open; None for no member of the
    /// group.
    pub fn instance(&self, member: Member) -> Option<(Instance, bool)>
        ensures { result ≡ of_member self.now.rehearsal member
            ((member_of self.now.rehearsal member).last, is_some (member_of self.now.rehearsal member).current) }
    {
        let seat = self.seat(member)?;
        Some((seat.instances.last(), seat.instances.current().is_some()))
    }

    /// The round of a member's open instance and its phase; None for no member of the group, and where none is open.
    pub fn round(&self, member: Member) -> Option<(Round, Phase)>
        ensures { result ≡ if_member self.now.rehearsal member
            (option_map (λ c. (c.round, c.phase)) (member_of self.now.rehearsal member).current) }
    {
        let seat = self.seat(member)?;
        let part = seat.instances.current()?;
        Some((part.round(), part.phase()))
    }

    /// How many batches were posted: as many as the members that delivered most have.
    pub fn posted(&self) -> u16
        ensures { result ≡ length (order (state_of self.now.rehearsal)) }
    {
        self.foremost().caster.batches() as u16
    }

    /// The batch of an instance: what its first Deliver or Follow delivered; None where there was none.
    pub fn batch(&self, instance: Instance) -> Option<&[Message]>
        ensures { option_map (λ list. list.now) result ≡ option_map (λ b. b.messages)
            (at_serial (order (state_of self.now.rehearsal)) instance) }
    {
        let place = (instance as usize).checked_sub(1)?;
        self.foremost().caster.batch_at(place)
    }

    // What is kept of a member.
    pub(super) fn seat(&self, member: Member) -> Option<&Seat>
        ensures there { is_some result ≡ is_member self.now.rehearsal.setting.members member }
        ensures seat { IfSome result (λ seat. IsSeatOf self.now.rehearsal member seat.now) }
    {
        self.kept.seat(member)
    }

    // The seat of the least of the members that delivered most batches.
    pub(super) fn foremost(&self) -> &Seat
        ensures value { result.now.caster.batches ≡ map (λ b. b.messages) (order (state_of self.now.rehearsal)) }
        ensures few { length result.now.caster.batches ≤ MAX_CELLS }
    {
        self.kept.foremost()
    }
}
