//! Serials that moved to the ends of lines.

ghost use Rattle.std.specs.Prelude.{◌≡◌, ℕ, ◌+◌, ◌≤◌, [], true, IfOk, IfSome, Some, length, drop, take, option_map, slice_index_or};
ghost use Rattle.ct_network.specs.Moves.{HasMoved, IsRising, KeepsOrder, key_of};
ghost use Rattle.ct_network.specs.Network.{place_of};

use crate::line::{NEAR, first};
use ct_names::Serial;
use std::alloc::{AllocError, Global};

// So far apart are the keys of two serials that were sent one after the other.
const SPAN: u64 = 1 << 32;

/// In what order serials came to long lines. Each has a key, that of its sending or, where it moved since, of its last
/// move. Keys don't fall along a line, so a serial is found there by its key. Sending writes nothing here, and while no line
/// is long no key is kept.
#[derive(Drop)]
pub(crate) struct Moves {
    /// The keys of those that moved, by serial. Others have 0, or stand behind the end.
    pub keys: Vec<u64>,
    /// How many of these keys were given.
    pub count: u32,
    /// Serials up to this one have all the same key until they move: they were sent before keys were kept.
    pub base: u32,
    /// Whether no key falls along a line, and a line has only what was sent to its member, once.
    pub is_sorted: bool,
}

impl Moves {
    /// No key is kept.
    pub(crate) fn new(alloc: Global) -> Moves
        ensures keys { result.keys.items ≡ [] }
        ensures count { result.count ≡ 0 }
    {
        Moves {
            keys: Vec::new(alloc),
            count: 0,
            base: u32::MAX,
            is_sorted: true,
        }
    }

    /// The same keys. Only memory can be refused.
    pub(crate) fn copy(&self, alloc: Global) -> Result<Moves, AllocError>
        ensures keys { IfOk result (λ copy. copy.keys.items ≡ self.now.keys.items) }
        ensures count { IfOk result (λ copy. copy.count ≡ self.now.count) }
        ensures base { IfOk result (λ copy. copy.base ≡ self.now.base) }
        ensures is_sorted { IfOk result (λ copy. copy.is_sorted ≡ self.now.is_sorted) }
    {
        Ok(Moves {
            keys: Vec::from_slice(alloc, &self.keys)?,
            count: self.count,
            base: self.base,
            is_sorted: self.is_sorted,
        })
    }

    /// Whether keys are kept.
    pub(crate) fn are_kept(&self) -> bool {
        self.base < u32::MAX
    }

    /// Makes room for the keys of those that were sent and of so many more, where keys are kept. Where some line is long
    /// they are from now on.
    pub(crate) fn make_room(
        &mut self,
        sent: usize,
        more: usize,
        long: bool,
    ) -> Result<(), AllocError>
        ensures { KeepsOrder self.old self.new sent }
    {
        self.begin(sent, long);
        if !self.are_kept() {
            return Ok(());
        }
        fill_up(&mut self.keys, sent.saturating_add(more).saturating_add(1))
    }

    // Keys are kept from now on, where some line is long.
    fn begin(&mut self, sent: usize, long: bool)
        ensures { KeepsOrder self.old self.new sent }
    {
        if long && sent < u32::MAX as usize {
            self.keys.clear();
            self.base = sent as u32;
        }
    }

    /// The serial moves to the end of its line, when so many envelopes were sent.
    #[inline(always)]
    pub(crate) fn renew(&mut self, serial: Serial, sent: usize)
        ensures { self.new.is_sorted ≡ true → HasMoved self.old self.new serial sent }
    {
        if sent >= self.base as usize {
            self.give_key(serial, sent);
        }
    }

    // Gives it the next key.
    #[inline(never)]
    fn give_key(&mut self, serial: Serial, sent: usize)
        ensures { self.new.is_sorted ≡ true → HasMoved self.old self.new serial sent }
    {
        let at = serial as usize;
        if sent > u32::MAX as usize || self.count == u32::MAX || at >= self.keys.len() {
            self.is_sorted = false;
            return;
        }
        self.count += 1;
        self.keys[at] = sent as u64 * SPAN + u64::from(self.count);
    }

    /// The key of the serial.
    fn key(&self, serial: Serial) -> u64
        ensures { result ≡ key_of self.now.keys.items self.now.base serial }
    {
        let last = if serial > self.base {
            serial
        } else {
            self.base
        };
        let sent = u64::from(last) * SPAN;
        match self.keys.get(serial as usize) {
            Some(moved) if *moved > sent => *moved,
            _ => sent,
        }
    }

    /// The first place of the serial in the line: what came last is looked for at the end, the rest by its key.
    pub(crate) fn find(&self, line: &[Serial], serial: Serial) -> Option<usize>
        requires { IsRising self.now.keys.items self.now.base line.now }
        ensures { result ≡ place_of serial line.now }
    {
        match self.find_near_end(line, serial) {
            Some(place) => Some(place),
            None => self.find_by_key(line, serial),
        }
    }

    // The same, where it stands near the end.
    fn find_near_end(&self, line: &[Serial], serial: Serial) -> Option<usize>
        requires { IsRising self.now.keys.items self.now.base line.now }
        ensures { IfSome result (λ place. place_of serial line.now ≡ Some place) }
    {
        let from = line.len().saturating_sub(NEAR);
        let place = first(&line[from..], serial)?;
        Some(from + place)
    }

    // The same, wherever it stands.
    fn find_by_key(&self, line: &[Serial], serial: Serial) -> Option<usize>
        requires { IsRising self.now.keys.items self.now.base line.now }
        ensures { result ≡ place_of serial line.now }
    {
        let key = self.key(serial);
        let from = line.partition_point(|other| self.key(*other) < key);
        let number = line[from..].partition_point(|other| self.key(*other) <= key);
        first_in(line, from, number, serial)
    }
}

// The first place of the serial among so many behind a place.
fn first_in(line: &[Serial], from: usize, number: usize, serial: Serial) -> Option<usize>
    requires from { from ≤ length line.now }
    requires number { number ≤ length (drop from line.now) }
    ensures { result ≡ option_map (λ place. from + place) (place_of serial (take number (drop from line.now))) }
{
    let rest = &line[from..];
    let place = first(&rest[..number], serial)?;
    Some(from + place)
}

// There are at least so many keys. More of them are 0.
fn fill_up(keys: &mut Vec<u64>, least: usize) -> Result<(), AllocError>
    ensures { (k : ℕ) → slice_index_or keys.new.items k 0 ≡ slice_index_or keys.old.items k 0 }
{
    if keys.len() < least {
        keys.resize(least, 0)?;
    }
    Ok(())
}
