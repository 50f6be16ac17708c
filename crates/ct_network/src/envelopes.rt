//! Lists of envelopes.

ghost use Rattle.std.specs.Prelude.{◌≡◌, ◌<◌, ◌≤◌, ◌+◌, ◌++◌, ◌∷◌, [], true, length, slice_get, vec_len, vec_capacity, IfOk, OnOk, OnErr};
ghost use Rattle.ct_model.specs.Wire.{envelopes};
ghost use Rattle.ct_model.specs.declared.mail.Mail.TheVariants.{All};
ghost use Rattle.ct_network.specs.declared.short.Short.{Short as AnyShort};
ghost use Rattle.ct_network.specs.Packed.{copies, is_readable, wire_of};

use crate::packed::Packed;
use crate::short::Short;
use ct_model::{Envelope, Wire};
use ct_names::{MAX_ENVELOPES, Member};
use std::alloc::{AllocError, Global};
use std::marker::Model;

/// The envelopes that were sent, in order, of 16 bytes each.
#[derive(Drop)]
pub(crate) struct Envelopes {
    packed: Vec<Packed>,
    // The wires that don't fit there, each once for all that it goes to.
    wires: Vec<Wire>,
}

// Contracts see the envelopes, and how many more one mail can add.
impl Model for Envelopes {
    ghost use Rattle.std.specs.Prelude.{◌-◌, ◌≤◌, ◌≡◌, true, map, if◌then◌else◌, nat_lt, vec_len, vec_capacity};
    ghost use Rattle.ct_network.specs.EnvelopeList.{EnvelopeList};
    ghost use Rattle.ct_network.specs.Packed.{envelope_of, are_readable};

    ghost Value = { EnvelopeList };

    ghost view = { λ a. record {
      items = map (envelope_of a.wires.items) a.packed.items;
      room = if nat_lt (vec_len a.wires) (vec_capacity a.wires) then vec_capacity a.packed - vec_len a.packed else 0;
    } };

    ghost invariant = { λ a. (are_readable (vec_len a.wires) a.packed.items ≡ true) × (vec_len a.wires ≤ vec_len a.packed) };
}

impl Envelopes {
    /// No envelopes.
    pub(crate) fn new(alloc: Global) -> Envelopes
        ensures { result.items ≡ [] }
    {
        Envelopes {
            packed: Vec::new(alloc),
            wires: Vec::new(alloc),
        }
    }

    /// A list of the same envelopes. Only memory can be refused.
    pub(crate) fn copy(&self, alloc: Global) -> Result<Envelopes, AllocError>
        ensures { IfOk result (λ copy. copy.items ≡ self.now.items) }
    {
        Ok(Envelopes {
            packed: Vec::from_slice(alloc, &self.packed)?,
            wires: Vec::from_slice(alloc, &self.wires)?,
        })
    }

    /// How many envelopes there are.
    pub(crate) fn len(&self) -> usize
        ensures { result ≡ length self.now.items }
    {
        self.packed.len()
    }

    /// The envelope at this place, counted from 0.
    #[inline(always)]
    pub(crate) fn get(&self, at: usize) -> Option<Envelope>
        ensures { result ≡ slice_get self.now.items at }
    {
        let packed = self.packed.get(at)?;
        Some(Envelope {
            to: packed.to,
            wire: packed.wire.wire(&self.wires),
        })
    }

    /// How many more envelopes one mail can add without memory.
    pub(crate) fn room(&self) -> usize
        ensures { result ≡ self.now.room }
    {
        if self.wires.len() < self.wires.capacity() {
            self.packed.capacity() - self.packed.len()
        } else {
            0
        }
    }

    /// Makes room for a mail of so many more envelopes. Where memory is refused that room was missing.
    pub(crate) fn make_room(&mut self, more: usize) -> Result<(), AllocError>
        ensures same { self.new.items ≡ self.old.items }
        ensures room { self.old.room ≤ self.new.room }
        ensures ok { OnOk result (more ≤ self.new.room) }
        ensures refused { OnErr result (self.old.room < more) }
    {
        if self.room() < more {
            self.wires.reserve(1)?;
            self.packed.reserve(more)?;
        }
        Ok(())
    }

    /// Adds the envelope of a mail to one member.
    pub(crate) fn add_one(&mut self, to: Member, wire: Wire)
        requires room { 0 < self.old.room }
        requires few { length self.old.items < MAX_ENVELOPES }
        ensures { self.new.items ≡ self.old.items ++ record { to = to; wire = wire } ∷ [] }
    {
        let wire = shorten(&mut self.wires, wire);
        let _ = self.packed.push(Packed { to, wire });
    }

    /// Adds the envelopes of a mail to all of so many members.
    pub(crate) fn add_all(&mut self, members: u8, wire: Wire)
        requires room { members ≤ self.old.room }
        requires few { length self.old.items + members ≤ MAX_ENVELOPES }
        ensures { self.new.items ≡ self.old.items ++ envelopes members (All wire) }
    {
        if members > 0 {
            let wire = shorten(&mut self.wires, wire);
            push_to_all(&mut self.packed, members, wire);
        }
    }
}

// The wire in few bytes. One that doesn't fit is listed.
fn shorten(wires: &mut Vec<Wire>, wire: Wire) -> Short
    requires room { vec_len wires.old < vec_capacity wires.old }
    requires few { vec_len wires.old < MAX_ENVELOPES }
    ensures wire { wire_of wires.new.items result ≡ wire }
    ensures readable { is_readable (vec_len wires.new) result ≡ true }
    ensures others { (short : AnyShort) → is_readable (vec_len wires.old) short ≡ true →
        wire_of wires.new.items short ≡ wire_of wires.old.items short }
    ensures longer { vec_len wires.old ≤ vec_len wires.new }
    ensures by_one { vec_len wires.new ≤ vec_len wires.old + 1 }
{
    if let Some(short) = Short::of(&wire) {
        return short;
    }
    let at = wires.len();
    let _ = wires.push(wire);
    Short::Listed((at as u32).to_le_bytes())
}

// An envelope of the wire to each of so many members in turn.
fn push_to_all(packed: &mut Vec<Packed>, members: u8, wire: Short)
    requires { vec_len packed.old + members ≤ vec_capacity packed.old }
    ensures packed { packed.new.items ≡ packed.old.items ++ copies members wire }
    ensures len { vec_len packed.new ≡ vec_len packed.old + members }
{
    // Each envelope gets a copy.
    let wire = &wire;
    for i in 0..members {
        let _ = packed.push(Packed {
            to: i + 1,
            wire: *wire,
        });
    }
}
