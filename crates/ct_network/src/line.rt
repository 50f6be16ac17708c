//! Waiting lines.

ghost use Rattle.std.specs.Prelude.{◌≡◌, true, ◌+◌, ◌<◌, ◌≤◌, [], ◌∷◌, ◌++◌, length, drop, remove, OnOk, OnErr, IfOk};
ghost use Rattle.ct_network.specs.Network.{place_of};
ghost use Rattle.ct_network.specs.Moves.{IsRising};

use crate::moves::Moves;
use ct_names::Serial;
use std::alloc::{AllocError, Global};
use std::marker::Model;

/// So many places at the front and at the end are looked through, and a serial leaves the front one by one, which is faster
/// for few.
pub(crate) const NEAR: usize = 32;

// Where more than so many wait somewhere it is kept in what order serials came.
const LONG: usize = 1024;

/// The serials that wait at a member, in order and in one piece. A leave moves those in front or behind, whichever are
/// fewer.
#[derive(Debug, Drop)]
pub(crate) struct Line {
    kept: Vec<Serial>,
    start: usize,
}

// Contracts see the serials that wait, and for how many more there is room. What stands before `start` is gone.
impl Model for Line {
    ghost use Rattle.std.specs.Prelude.{◌-◌, ◌≤◌, drop, vec_len, vec_capacity};
    ghost use Rattle.ct_network.specs.WaitingLine.{WaitingLine};

    ghost Value = { WaitingLine };

    ghost view = { λ a. record { serials = drop a.start a.kept.items; room = vec_capacity a.kept - vec_len a.kept } };

    ghost invariant = { λ a. a.start ≤ vec_len a.kept };
}

impl Line {
    /// A line in which nothing waits.
    pub(crate) fn new(alloc: Global) -> Line
        ensures { result.serials ≡ [] }
    {
        Line {
            kept: Vec::new(alloc),
            start: 0,
        }
    }

    /// A line in which the same serials wait. Only memory can be refused.
    pub(crate) fn copy(&self, alloc: Global) -> Result<Line, AllocError>
        ensures { IfOk result (λ line. line.serials ≡ self.now.serials) }
    {
        let kept = Vec::from_slice(alloc, self.as_slice())?;
        Ok(Line { kept, start: 0 })
    }

    /// The serials that wait, in order.
    pub(crate) fn as_slice(&self) -> &[Serial]
        ensures { result.now ≡ self.now.serials }
    {
        &self.kept[self.start..]
    }

    /// The first place of the serial, counted from 0.
    #[inline(always)]
    pub(crate) fn find(&self, serial: Serial, moves: &Moves) -> Option<usize>
        requires { moves.now.is_sorted ≡ true → IsRising moves.now.keys.items moves.now.base self.now.serials }
        ensures { result ≡ place_of serial self.now.serials }
    {
        let line = self.as_slice();
        let near = if line.len() > NEAR { NEAR } else { line.len() };
        match first(&line[..near], serial) {
            Some(place) => Some(place),
            None => find_far(line, serial, moves),
        }
    }

    /// Whether many serials wait.
    pub(crate) fn is_long(&self) -> bool {
        self.kept.len() - self.start > LONG
    }

    /// Makes room for so many more serials. Where that is missing the line first takes back the places of the serials
    /// that left, if those are more than half. Where memory is refused that room was missing.
    pub(crate) fn make_room(&mut self, more: usize) -> Result<(), AllocError>
        ensures same { self.new.serials ≡ self.old.serials }
        ensures room { self.old.room ≤ self.new.room }
        ensures ok { OnOk result (more ≤ self.new.room) }
        ensures refused { OnErr result (self.old.room < more) }
    {
        if self.kept.capacity() - self.kept.len() < more && self.start > self.kept.len() / 2 {
            self.reclaim();
        }
        self.kept.reserve(more)
    }

    /// The serial comes to the end.
    #[inline(always)]
    pub(crate) fn join(&mut self, serial: Serial)
        requires { 0 < self.old.room }
        ensures serials { self.new.serials ≡ self.old.serials ++ serial ∷ [] }
        ensures room { self.old.room ≤ self.new.room + 1 }
    {
        let _ = self.kept.push(serial);
    }

    /// The serial at this place, counted from 0, leaves; the others stay in order.
    #[inline(always)]
    pub(crate) fn leave(&mut self, at: usize)
        requires { at < length self.old.serials }
        ensures serials { self.new.serials ≡ remove self.old.serials at }
        ensures room { self.old.room ≤ self.new.room }
    {
        if at < NEAR {
            take_out(&mut self.kept, self.start, at);
            self.start += 1;
        } else {
            self.leave_far(at);
        }
    }

    // The same far from the front, where the shorter side moves at once.
    #[inline(never)]
    fn leave_far(&mut self, at: usize)
        requires { at < length self.old.serials }
        ensures serials { self.new.serials ≡ remove self.old.serials at }
        ensures room { self.old.room ≤ self.new.room }
    {
        let place = self.start + at;
        if at < self.kept.len() - place {
            take_out_far(&mut self.kept, self.start, at);
            self.start += 1;
        } else {
            let _ = self.kept.remove(place);
        }
    }

    // The places of the serials that left become room.
    fn reclaim(&mut self)
        ensures serials { self.new.serials ≡ self.old.serials }
        ensures room { self.old.room ≤ self.new.room }
    {
        let waiting = self.kept.len() - self.start;
        self.kept.copy_within(self.start.., 0);
        self.kept.truncate(waiting);
        self.start = 0;
    }
}

// The first place of the serial, which doesn't stand near the front.
#[inline(never)]
fn find_far(line: &[Serial], serial: Serial, moves: &Moves) -> Option<usize>
    requires { moves.now.is_sorted ≡ true → IsRising moves.now.keys.items moves.now.base line.now }
    ensures { result ≡ place_of serial line.now }
{
    if moves.is_sorted && line.len() > NEAR {
        moves.find(line, serial)
    } else {
        first(line, serial)
    }
}

/// The first place of the serial.
#[inline(always)]
pub(crate) fn first(line: &[Serial], serial: Serial) -> Option<usize>
    ensures { result ≡ place_of serial line.now }
{
    line.iter().position(|other| *other == serial)
}

// Removes the item at this place from `start` on, and leaves the rest one place further on.
#[inline(always)]
fn take_out(kept: &mut [Serial], start: usize, at: usize)
    requires { start + at < length kept.old }
    ensures { drop (start + 1) kept.new ≡ remove (drop start kept.old) at }
{
    if at > 0 {
        kept.copy_within(start..start + at, start + 1);
    }
}

// The same, faster where many stand before it.
fn take_out_far(kept: &mut [Serial], start: usize, at: usize)
    requires { start + at < length kept.old }
    ensures { drop (start + 1) kept.new ≡ remove (drop start kept.old) at }
{
    kept[start..start + at + 1].rotate_right(1);
}
