//! Networks.

ghost use Rattle.std.specs.Prelude.{◌≡◌, true, [], length, replicate, if◌then◌else◌, Some, None, IfOk, option_copied};
ghost use Rattle.ct_names.specs.Group.{is_member};
ghost use Rattle.ct_model.specs.State.{at_serial};
ghost use Rattle.ct_network.specs.Network.{line_at, place_of};

mod moving;
mod preparing;
mod sending;

use crate::envelopes::Envelopes;
use crate::line::Line;
use crate::lines;
use crate::moves::Moves;
use ct_model::Envelope;
use ct_names::{Member, Serial};
use std::alloc::{AllocError, Global};
use std::marker::Model;

/// The network of a group: every envelope that was sent, and the serials that wait at each member.
#[derive(Drop)]
pub struct Network {
    envelopes: Envelopes,
    lines: Vec<Line>,
    // So many more serials can join each line without memory, and perhaps more.
    spare: usize,
    // In what order serials came to long lines.
    moves: Moves,
}

impl Model for Network {
    ghost use Rattle.std.specs.Prelude.{◌&&◌, nat_le, nat_lt, length};
    ghost use Rattle.ct_network.specs.Lines.{serials_of, HaveRoom};
    ghost use Rattle.ct_network.specs.Moves.{AreInOrder};
    ghost use Rattle.ct_network.specs.Network.{NetworkView};

    ghost Value = { NetworkView };

    ghost view = { λ a. record {
      sent = a.envelopes.items;
      lines = serials_of a.lines.items;
      has_room = nat_le (length a.lines.items) a.envelopes.room && nat_lt 0 a.spare;
    } };

    ghost invariant = { λ a. HaveRoom a.lines.items a.spare × AreInOrder a.envelopes.items (serials_of a.lines.items) a.moves };
}

impl Network {
    /// The network of so many members: nothing was sent. Only memory can be refused.
    pub fn new(alloc: Global, members: u8) -> Result<Network, AllocError>
        ensures sent { IfOk result (λ network. network.sent ≡ []) }
        ensures lines { IfOk result (λ network. network.lines ≡ replicate members []) }
    {
        Ok(Network {
            envelopes: Envelopes::new(alloc),
            lines: lines::new_lines(alloc, members)?,
            spare: 0,
            moves: Moves::new(alloc),
        })
    }

    /// A network with the same envelopes and lines. Only memory can be refused.
    pub fn copy(&self, alloc: Global) -> Result<Network, AllocError>
        ensures sent { IfOk result (λ network. network.sent ≡ self.now.sent) }
        ensures lines { IfOk result (λ network. network.lines ≡ self.now.lines) }
    {
        Ok(Network {
            envelopes: self.envelopes.copy(alloc)?,
            lines: lines::copy_lines(alloc, &self.lines)?,
            spare: 0,
            moves: self.moves.copy(alloc)?,
        })
    }

    /// How many envelopes were sent.
    pub fn sent(&self) -> usize
        ensures { result ≡ length self.now.sent }
    {
        self.envelopes.len()
    }

    /// How many members there are.
    pub fn members(&self) -> usize
        ensures { result ≡ length self.now.lines }
    {
        self.lines.len()
    }

    /// The envelope with this serial. None where none was sent.
    #[inline(always)]
    pub fn envelope(&self, serial: Serial) -> Option<Envelope>
        ensures { result ≡ at_serial self.now.sent serial }
    {
        let at = (serial as usize).checked_sub(1)?;
        self.envelopes.get(at)
    }

    /// The serials that wait at the member, in order. None where there is no such member.
    pub fn line(&self, member: Member) -> Option<&[Serial]>
        ensures { option_copied result ≡ (if is_member (length self.now.lines) member then Some (line_at self.now.lines member) else None) }
    {
        let at = (member as usize).checked_sub(1)?;
        Some(self.lines.get(at)?.as_slice())
    }

    /// The place of the serial in the member's line, counted from 0. None where it doesn't wait there.
    pub fn find(&self, member: Member, serial: Serial) -> Option<usize>
        ensures { result ≡ (if is_member (length self.now.lines) member then place_of serial (line_at self.now.lines member) else None) }
    {
        let at = (member as usize).checked_sub(1)?;
        self.lines.get(at)?.find(serial, &self.moves)
    }
}
