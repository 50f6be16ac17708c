//! What a member received and delivered.

ghost use Rattle.std.specs.Prelude.{◌≡◌, ℕ, ◌+◌, ◌<◌, ◌≤◌, ◌&&◌, ◌++◌, ◌∷◌, [], false, not, length, take, nat_lt, slice_get};
ghost use Rattle.std.specs.Prelude.{option_map, IsTrue};
ghost use Rattle.std.specs.Prelude.{IfOk, OnOk, OnErr};
ghost use Rattle.indexmap.specs.IndexSet.{spare};
ghost use Rattle.ct_names.specs.Message.{Message as Plain};
ghost use Rattle.ct_names.specs.Value.{has};
ghost use Rattle.ct_abcast.specs.Cast.{delivered, undelivered, batch_of, has_room};

use crate::batch::Batch;
use crate::delivered::Delivered;
use crate::ordered::Ordered;
use ct_names::{Instance, MAX_INSTANCES, Message, MsgSet};
use indexmap::IndexSet;
use std::alloc::{AllocError, Global};
use std::marker::Model;

/// The messages that a member received, and the batches that it delivered, one for each decision (Chandra and Toueg,
/// section 7).
#[derive(Drop)]
pub struct Caster {
    received: Vec<Message>,
    // What was received and not delivered, in no order.
    pending: IndexSet<Message>,
    // The same in order, as far as it was fed.
    ordered: Ordered,
    delivered: Delivered,
    instance: Instance,
}

impl Model for Caster {
    ghost use Rattle.std.specs.Prelude.{◌≡◌, ◌-◌, min};
    ghost use Rattle.std.specs.Vec.{vec_len, vec_capacity};
    ghost use Rattle.indexmap.specs.IndexSet.{spare};
    ghost use Rattle.ct_abcast.specs.Batches.{joined};
    ghost use Rattle.ct_abcast.specs.Cast.{Cast, least};
    ghost use Rattle.ct_abcast.specs.Ordered.{IsFed};
    ghost use Rattle.ct_abcast.specs.Pending.{IsPending};

    ghost Value = { Cast };

    ghost view = { λ c. record {
      received = c.received.items;
      batches = c.delivered.batches;
      instance = c.instance;
      room =
          least (vec_capacity c.received - vec_len c.received) (spare c.pending) c.delivered.room;
      fits_batch = c.delivered.fits_batch;
    } };

    ghost invariant = { λ c. IsPending c.pending.keys c.received.items (joined c.delivered.batches)
        × IsFed c.ordered c.received.items (joined c.delivered.batches) };
}

impl Caster {
    /// Nothing was received, nothing delivered, and no instance begun. Whether there is room is not said.
    pub fn new(alloc: Global) -> Caster
        ensures received { result.received ≡ [] }
        ensures batches { result.batches ≡ [] }
        ensures instance { result.instance ≡ 0 }
    {
        Caster {
            received: Vec::new(alloc),
            pending: IndexSet::new(alloc),
            ordered: Ordered::new(alloc),
            delivered: Delivered::new(alloc),
            instance: 0,
        }
    }

    /// The messages in the order of receipt.
    pub fn received(&self) -> &[Message]
        ensures { result.now ≡ self.now.received }
    {
        &self.received
    }

    /// The messages in the order of delivery.
    pub fn delivered(&self) -> &[Message]
        ensures { result.now ≡ delivered self.now }
    {
        self.delivered.messages()
    }

    /// The last instance that was begun, 0 before the first.
    pub fn instance(&self) -> Instance
        ensures { result ≡ self.now.instance }
    {
        self.instance
    }

    /// How many batches were delivered.
    pub fn batches(&self) -> usize
        ensures { result ≡ length self.now.batches }
    {
        self.delivered.len()
    }

    /// The messages of the batch at the place, from 0 in the order of delivery, or None where there is none.
    pub fn batch_at(&self, place: usize) -> Option<&[Message]>
        ensures { option_map (λ list. list.now) result ≡ slice_get self.now.batches place }
    {
        self.delivered.get(place)
    }

    /// Whether a message was received and not delivered.
    pub fn has_undelivered(&self) -> bool
        ensures { result ≡ nat_lt 0 (length (undelivered self.now)) }
    {
        !self.pending.is_empty()
    }

    /// Of the set of the messages that were received and not delivered the first ones, as many as the bound or all, or the
    /// error where memory is refused. What was received and delivered stays, Ok or not. It costs what it answers and what was
    /// received since it was last asked for fewer than all, and not what else is pending.
    pub fn undelivered(&mut self, alloc: Global, bound: u32) -> Result<MsgSet, AllocError>
        ensures first { IfOk result (λ set. set ≡ take bound (undelivered self.old)) }
        ensures same { self.new ≡ self.old }
    {
        if self.pending.len() <= bound as usize {
            return MsgSet::of(alloc, self.pending.as_slice());
        }
        self.ordered.feed(&self.received, &self.delivered)?;
        self.ordered.first(alloc, bound)
    }

    /// Whether so many messages can be received, and one batch of so many delivered, without memory.
    pub fn has_room(&self, more: usize) -> bool
        ensures { result ≡ has_room self.now more }
    {
        more <= self.received.capacity() - self.received.len()
            && more <= self.pending.capacity() - self.pending.len()
            && self.delivered.has_room(more)
    }

    /// Makes room to receive so many messages and to deliver a batch of so many. Where memory is refused that room was
    /// missing. What was received and delivered stays, Ok or not, and there is no less room than before.
    pub fn prepare(&mut self, more: usize) -> Result<(), AllocError>
        ensures received { self.new.received ≡ self.old.received }
        ensures batches { self.new.batches ≡ self.old.batches }
        ensures instance { self.new.instance ≡ self.old.instance }
        ensures room { self.old.room ≤ self.new.room }
        ensures fits { IsTrue self.old.fits_batch → IsTrue self.new.fits_batch }
        ensures ok_room { OnOk result (more ≤ self.new.room) }
        ensures ok_fits { OnOk result (IsTrue self.new.fits_batch) }
        ensures refused { OnErr result (has_room self.old more ≡ false) }
    {
        self.received.reserve(more)?;
        self.pending.reserve(more)?;
        self.delivered.prepare(more)
    }

    /// Receives the message. It takes no memory.
    pub fn receive(&mut self, message: Message)
        requires { 1 ≤ self.old.room }
        ensures received { self.new.received ≡ self.old.received ++ message ∷ [] }
        ensures batches { self.new.batches ≡ self.old.batches }
        ensures instance { self.new.instance ≡ self.old.instance }
        ensures room { self.old.room ≤ self.new.room + 1 }
        ensures fits { self.new.fits_batch ≡ self.old.fits_batch }
    {
        self.received.push(message).unwrap();
        if !self.delivered.contains(&message) {
            self.pending.insert(message).unwrap();
        }
    }

    /// Begins the next instance.
    pub fn begin(&mut self)
        requires { self.old.instance < MAX_INSTANCES }
        ensures { self.new ≡ record self.old { instance = self.old.instance + 1 } }
    {
        self.instance += 1;
    }

    /// Delivers the messages of the decision that were not delivered, as one batch, in their order: none of them has to be
    /// received. It takes no memory, and its cost is that of the decision, whatever else is pending. Room for another batch has
    /// to be prepared anew.
    pub fn deliver(&mut self, set: &MsgSet)
        requires room { length set.now ≤ self.old.room }
        requires fits { IsTrue self.old.fits_batch }
        ensures batches { self.new.batches ≡ self.old.batches ++ batch_of self.old set.now ∷ [] }
        ensures received { self.new.received ≡ self.old.received }
        ensures instance { self.new.instance ≡ self.old.instance }
        ensures room { self.old.room ≤ self.new.room + length set.now }
    {
        self.delivered.deliver(set);
        take_out(&mut self.pending, set.items());
        self.ordered.take_out(set.items());
    }

    /// What the decision of this instance would deliver now, if it is that set, or the error where memory is refused.
    pub fn batch(
        &self,
        alloc: Global,
        instance: Instance,
        set: &MsgSet,
    ) -> Result<Batch, AllocError>
        ensures instance { IfOk result (λ batch. batch.instance ≡ instance) }
        ensures messages { IfOk result (λ batch. batch.messages ≡ batch_of self.now set.now) }
    {
        let messages = self.delivered.rest(alloc, set)?;
        Ok(Batch::of(instance, messages))
    }

    /// The same messages, batches and instance once more, or the error where memory is refused. Whether the copy has room
    /// is not said.
    pub fn copy(&self, alloc: Global) -> Result<Caster, AllocError>
        ensures received { IfOk result (λ copy. copy.received ≡ self.now.received) }
        ensures batches { IfOk result (λ copy. copy.batches ≡ self.now.batches) }
        ensures instance { IfOk result (λ copy. copy.instance ≡ self.now.instance) }
    {
        Ok(Caster {
            received: Vec::from_slice(alloc, &self.received)?,
            pending: self.pending.clone()?,
            ordered: Ordered::new(alloc),
            delivered: self.delivered.copy(alloc)?,
            instance: self.instance,
        })
    }
}

// Takes the messages out of the pending ones.
fn take_out(pending: &mut IndexSet<Message>, messages: &[Message])
    ensures left { (m : Plain) → has pending.new.keys m ≡ (has pending.old.keys m && not (has messages.now m)) }
    ensures room { spare pending.old ≤ spare pending.new }
{
    for message in messages {
        pending.swap_remove(message);
    }
}
