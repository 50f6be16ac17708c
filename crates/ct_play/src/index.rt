//! Envelopes by their addresses.

ghost use Rattle.std.specs.Prelude.{◌≡◌, ◌+◌, true};
ghost use Rattle.ct_model.specs.Rehearsal.{state_of};
ghost use Rattle.ct_play.specs.Indexing.{IsEmptyIndex, IsIndexOf, IsLastTo, is_at};

use crate::address::Address;
use crate::picking::{carried_of, carries};
use ct_names::Serial;
use ct_world::World;
use indexmap::IndexMap;
use std::alloc::{AllocError, Global};

/// The serials of envelopes by address: the last one's, and by each serial the one before it.
#[derive(Drop)]
pub(crate) struct Index {
    last: IndexMap<Address, Serial>,
    // By serial; 0 where there is none before it.
    before: Vec<Serial>,
}

impl Index {
    /// Nothing is noted.
    pub(crate) fn new(alloc: Global) -> Index
        ensures { IsEmptyIndex result }
    {
        Index {
            last: IndexMap::new(alloc),
            before: Vec::new(alloc),
        }
    }

    /// Notes what was sent since.
    pub(crate) fn note(&mut self, world: &World) -> Result<(), AllocError>
        requires { IsIndexOf world.now.rehearsal self.old }
        ensures { IsIndexOf world.now.rehearsal self.new }
    {
        for _ in self.before.len()..world.sent() as usize {
            self.note_next(world)?;
        }
        Ok(())
    }

    // Notes the next envelope, where one was sent.
    fn note_next(&mut self, world: &World) -> Result<(), AllocError>
        requires { IsIndexOf world.now.rehearsal self.old }
        ensures { IsIndexOf world.now.rehearsal self.new }
    {
        let count = self.before.len();
        if count >= world.sent() as usize {
            return Ok(());
        }
        let serial = count as u32 + 1;
        let Some(letter) = world.letter(serial) else {
            return Ok(());
        };
        let address = Address {
            to: letter.to,
            carried: carried_of(&letter.wire),
        };
        self.before.reserve(1)?;
        let before = self.last.insert(address, serial)?.unwrap_or(0);
        self.before.push(before).unwrap();
        Ok(())
    }

    /// A serial up to this one, behind which none up to it has the address.
    pub(crate) fn last_to(&self, world: &World, address: Address, upto: Serial) -> Serial
        requires { IsIndexOf world.now.rehearsal self.now }
        ensures { IsLastTo (is_at (state_of world.now.rehearsal).sent address) upto result }
    {
        match self.before.get(upto as usize) {
            Some(before) if is_next_at(world, address, upto) => *before,
            None if upto as usize == self.before.len() => self
                .last
                .get(&address)
                .copied()
                .unwrap_or(0),
            _ => upto,
        }
    }
}

// Whether the envelope of the serial behind this one has the address.
fn is_next_at(world: &World, address: Address, serial: Serial) -> bool
    ensures { result ≡ true → is_at (state_of world.now.rehearsal).sent address (serial + 1) ≡ true }
{
    if serial >= world.sent() {
        return false;
    }
    match world.letter(serial + 1) {
        Some(letter) => letter.to == address.to && carries(&letter.wire, address.carried),
        None => false,
    }
}
