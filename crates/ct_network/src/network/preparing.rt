//! Room for what a step sends.

ghost use Rattle.std.specs.Prelude.{◌≡◌, false, IsTrue, OnOk, OnErr};

use crate::lines;
use crate::network::Network;
use std::alloc::AllocError;

// Room is made in the lines for so many steps at once.
const AHEAD: usize = 64;

impl Network {
    /// Whether what one step sends can be sent without memory.
    pub fn has_room(&self) -> bool
        ensures { result ≡ self.now.has_room }
    {
        self.envelopes.room() >= self.lines.len() && self.spare > 0
    }

    /// Makes room for what one step sends. Where memory is refused that room was missing. What was sent and what waits
    /// stays, Ok or not, and so does room.
    pub fn prepare(&mut self) -> Result<(), AllocError>
        ensures ok { OnOk result (IsTrue self.new.has_room) }
        ensures refused { OnErr result (self.old.has_room ≡ false) }
        ensures room { IsTrue self.old.has_room → IsTrue self.new.has_room }
        ensures sent { self.new.sent ≡ self.old.sent }
        ensures lines { self.new.lines ≡ self.old.lines }
    {
        self.envelopes.make_room(self.lines.len())?;
        if self.spare == 0 {
            lines::make_room(&mut self.lines, AHEAD)?;
            let more = self.lines.len().saturating_mul(AHEAD);
            let long = !self.moves.are_kept() && self.lines.iter().any(|line| line.is_long());
            self.moves.make_room(self.envelopes.len(), more, long)?;
            self.spare = AHEAD;
        }
        Ok(())
    }
}
