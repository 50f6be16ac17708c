//! What is known of a member's part in its open instance. No call takes memory.

ghost use Rattle.std.specs.Prelude.{◌≡◌, option_map};
ghost use Rattle.ct_world.specs.Standing.{estimate_by, heard_by, all_heard_by, acked_by, replied_by};
ghost use Rattle.ct_world.specs.World.{member_of, if_member};

use crate::world::World;
use ct_names::{Member, MemberSet, Message, Round};

impl World {
    /// The value that a member holds for the decision of its open instance, in the order of messages, and its ts: the
    /// round whose proposal it is, 0 for the member's own. None for no member of the group, and where none is open.
    pub fn estimate(&self, member: Member) -> Option<(&[Message], Round)>
        ensures { option_map (λ e. (e.0.now, e.1)) result ≡ if_member self.now.rehearsal member
            (estimate_by (member_of self.now.rehearsal member)) }
    {
        let seat = self.seat(member)?;
        let part = seat.instances.current()?;
        let set = self.kept.book.get(part.estimate())?;
        Some((set.items(), part.ts()))
    }

    /// The estimate of `from` that a member heard for the round that it is in, in the order of messages, and its ts; None for
    /// no member of the group, where no instance is open, and where none was heard.
    pub fn heard_from(&self, member: Member, from: Member) -> Option<(&[Message], Round)>
        ensures { option_map (λ e. (e.0.now, e.1)) result ≡ if_member self.now.rehearsal member
            (heard_by (member_of self.now.rehearsal member) from) }
    {
        let seat = self.seat(member)?;
        let round = seat.instances.current()?.round();
        let inbox = seat.instances.inbox()?;
        let value = inbox.estimate(round, from)?;
        let ts = inbox.ts(round, from)?;
        let set = self.kept.book.get(value)?;
        Some((set.items(), ts))
    }

    /// The members whose estimates a member heard for the round that it is in; None for no member of the group, and where no
    /// instance is open.
    pub fn heard(&self, member: Member) -> Option<MemberSet>
        ensures { result ≡ if_member self.now.rehearsal member (all_heard_by (member_of self.now.rehearsal member)) }
    {
        let seat = self.seat(member)?;
        let round = seat.instances.current()?.round();
        Some(seat.instances.inbox()?.heard(round))
    }

    /// The members whose acks a member got for the round that it is in; None for no member of the group, and where no instance
    /// is open.
    pub fn acked(&self, member: Member) -> Option<MemberSet>
        ensures { result ≡ if_member self.now.rehearsal member (acked_by (member_of self.now.rehearsal member)) }
    {
        let seat = self.seat(member)?;
        let round = seat.instances.current()?.round();
        Some(seat.instances.inbox()?.acked(round))
    }

    /// The members whose acks or nacks a member got for the round that it is in; None for no member of the group, and where no
    /// instance is open.
    pub fn replied(&self, member: Member) -> Option<MemberSet>
        ensures { result ≡ if_member self.now.rehearsal member (replied_by (member_of self.now.rehearsal member)) }
    {
        let seat = self.seat(member)?;
        let round = seat.instances.current()?.round();
        Some(seat.instances.inbox()?.replied(round))
    }
}
