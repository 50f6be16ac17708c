//! What a member delivered.

ghost use Rattle.std.specs.Prelude.{◌≡◌, ℕ, ◌+◌, ◌≤◌, ◌++◌, ◌∷◌, [], ◌&&◌, false, length, nat_le, slice_get, option_map, IsTrue, IfOk};
ghost use Rattle.std.specs.Prelude.{OnOk, OnErr};
ghost use Rattle.ct_names.specs.Value.{has};
ghost use Rattle.ct_abcast.specs.Batches.{joined, batch_after};

use crate::last::Last;
use ct_names::{Message, MsgSet};
use indexmap::IndexSet;
use std::alloc::{AllocError, Global};
use std::marker::Model;

/// The batches that a member delivered. No message is delivered twice.
#[derive(Drop)]
pub(crate) struct Delivered {
    // All that was delivered, in order.
    messages: IndexSet<Message>,
    // Where each batch ends in it.
    ends: Vec<usize>,
    // The largest number of each origin in it.
    last: Last,
}

// Contracts see the batches and the room for more.
impl Model for Delivered {
    ghost use Rattle.std.specs.Prelude.{nat_lt};
    ghost use Rattle.std.specs.Vec.{vec_len, vec_capacity};
    ghost use Rattle.indexmap.specs.IndexSet.{spare};
    ghost use Rattle.ct_abcast.specs.Batches.{Batches};
    ghost use Rattle.ct_abcast.specs.Ends.{parts};
    ghost use Rattle.ct_abcast.specs.Last.{IsDelivered};

    ghost Value = { Batches };

    ghost view = { λ d. record {
      batches = parts 0 d.ends.items d.messages.keys;
      room = spare d.messages;
      fits_batch =
          nat_lt (vec_len d.ends) (vec_capacity d.ends);
    } };

    ghost invariant = { λ d. IsDelivered d.messages.keys d.ends.items d.last };
}

impl Delivered {
    // Nothing was delivered.
    pub(crate) fn new(alloc: Global) -> Delivered
        ensures { result.batches ≡ [] }
    {
        Delivered {
            messages: IndexSet::new(alloc),
            ends: Vec::new(alloc),
            last: Last::new(),
        }
    }

    // The messages of all batches.
    #[tactic(auto, using(crate::proofs::Parts::in_parts))]
    pub(crate) fn messages(&self) -> &[Message]
        ensures { result.now ≡ joined self.now.batches }
    {
        self.messages.as_slice()
    }

    // Whether the message was delivered. A number that is larger than all of the origin tells that it was not.
    #[tactic(auto, using(crate::proofs::Parts::in_parts))]
    pub(crate) fn contains(&self, message: &Message) -> bool
        ensures { result ≡ has (joined self.now.batches) message.now }
    {
        if self.last.is_past(message) {
            return false;
        }
        self.messages.contains(message)
    }

    // How many batches there are.
    #[tactic(auto, using(crate::proofs::Parts::in_parts))]
    pub(crate) fn len(&self) -> usize
        ensures { result ≡ length self.now.batches }
    {
        self.ends.len()
    }

    // The batch at the place, from 0.
    #[tactic(auto, using(crate::proofs::Parts::in_parts))]
    pub(crate) fn get(&self, place: usize) -> Option<&[Message]>
        ensures { option_map (λ list. list.now) result ≡ slice_get self.now.batches place }
    {
        let end = *self.ends.get(place)?;
        let start = if place == 0 { 0 } else { self.ends[place - 1] };
        self.messages().get(start..end)
    }

    // Whether a batch of so many messages can be delivered without memory.
    pub(crate) fn has_room(&self, more: usize) -> bool
        ensures { result ≡ (nat_le more self.now.room && self.now.fits_batch) }
    {
        more <= self.messages.capacity() - self.messages.len()
            && self.ends.len() < self.ends.capacity()
    }

    // Makes room for a batch of so many messages.
    pub(crate) fn prepare(&mut self, more: usize) -> Result<(), AllocError>
        ensures batches { self.new.batches ≡ self.old.batches }
        ensures room { self.old.room ≤ self.new.room }
        ensures fits { IsTrue self.old.fits_batch → IsTrue self.new.fits_batch }
        ensures ok_room { OnOk result (more ≤ self.new.room) }
        ensures ok_fits { OnOk result (IsTrue self.new.fits_batch) }
        ensures refused { OnErr result ((nat_le more self.old.room && self.old.fits_batch) ≡ false) }
    {
        self.messages.reserve(more)?;
        self.ends.reserve(1)
    }

    // The messages of the set that were not delivered.
    #[tactic(auto, using(crate::proofs::Parts::in_parts))]
    pub(crate) fn rest(&self, alloc: Global, set: &MsgSet) -> Result<Vec<Message>, AllocError>
        ensures { IfOk result (λ list. list.items ≡ batch_after self.now.batches set.now) }
    {
        let mut rest = Vec::new(alloc);
        for message in set.items() {
            if !self.contains(message) {
                rest.push(*message)?;
            }
        }
        Ok(rest)
    }

    // Delivers the messages of the set that were not delivered, as a batch.
    pub(crate) fn deliver(&mut self, set: &MsgSet)
        requires room { length set.now ≤ self.old.room }
        requires fits { IsTrue self.old.fits_batch }
        ensures batches { self.new.batches ≡ self.old.batches ++ batch_after self.old.batches set.now ∷ [] }
        ensures room { self.old.room ≤ self.new.room + length set.now }
    {
        for message in set.items() {
            self.last.see(message);
            self.messages.insert(*message).unwrap();
        }
        self.ends.push(self.messages.len()).unwrap();
    }

    // The same batches once more.
    pub(crate) fn copy(&self, alloc: Global) -> Result<Delivered, AllocError>
        ensures { IfOk result (λ copy. copy.batches ≡ self.now.batches) }
    {
        Ok(Delivered {
            messages: self.messages.clone()?,
            ends: Vec::from_slice(alloc, &self.ends)?,
            last: self.last,
        })
    }
}
