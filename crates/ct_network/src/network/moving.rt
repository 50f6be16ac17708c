//! Serials that leave a line, move to its end, or come back to it.

ghost use Rattle.std.specs.Prelude.{◌≡◌, ◌-◌, ◌<◌, ◌++◌, [], ◌∷◌, true, length, remove, slice_set, IsTrue, None};
ghost use Rattle.ct_names.specs.Group.{is_member};
ghost use Rattle.ct_network.specs.Network.{line_at, place_of, put_last};
ghost use Rattle.ct_network.specs.Moves.{IsTo};

use crate::network::Network;
use ct_names::{Member, Serial};

impl Network {
    /// The serial at this place of the member's line, which `find` answers, leaves; the others stay in order.
    pub fn leave(&mut self, member: Member, place: usize)
        requires member { is_member (length self.old.lines) member ≡ true }
        requires there { place < length (line_at self.old.lines member) }
        ensures lines { self.new.lines ≡ slice_set self.old.lines (member - 1) (remove (line_at self.old.lines member) place) }
        ensures sent { self.new.sent ≡ self.old.sent }
        ensures room { self.new.has_room ≡ self.old.has_room }
    {
        self.lines[member as usize - 1].leave(place);
    }

    /// The serial at this place of the member's line, which `find` answers, moves to the end; the others stay in order.
    /// Takes no memory.
    #[inline(always)]
    pub fn postpone(&mut self, member: Member, place: usize)
        requires room { IsTrue self.old.has_room }
        requires member { is_member (length self.old.lines) member ≡ true }
        requires there { place < length (line_at self.old.lines member) }
        ensures lines { self.new.lines ≡ slice_set self.old.lines (member - 1) (put_last (line_at self.old.lines member) place) }
        ensures sent { self.new.sent ≡ self.old.sent }
    {
        let line = &mut self.lines[member as usize - 1];
        let serial = line.as_slice()[place];
        line.leave(place);
        line.join(serial);
        self.moves.renew(serial, self.envelopes.len());
        self.spare -= 1;
    }

    /// The serial comes to the end of the member's line, whether or not it was there before. Takes no memory.
    pub fn put_back(&mut self, member: Member, serial: Serial)
        requires room { IsTrue self.old.has_room }
        requires member { is_member (length self.old.lines) member ≡ true }
        ensures lines { self.new.lines ≡ slice_set self.old.lines (member - 1) (line_at self.old.lines member ++ serial ∷ []) }
        ensures sent { self.new.sent ≡ self.old.sent }
    {
        let away = self.is_away(member, serial);
        self.moves.is_sorted &= away;
        self.moves.renew(serial, self.envelopes.len());
        self.lines[member as usize - 1].join(serial);
        self.spare -= 1;
    }

    // Whether the serial was sent to the member and doesn't wait there.
    fn is_away(&self, member: Member, serial: Serial) -> bool
        requires { is_member (length self.now.lines) member ≡ true }
        ensures to { result ≡ true → IsTo self.now.sent member serial }
        ensures away { result ≡ true → place_of serial (line_at self.now.lines member) ≡ None }
    {
        match self.envelope(serial) {
            Some(envelope) => envelope.to == member && self.find(member, serial).is_none(),
            None => false,
        }
    }
}
