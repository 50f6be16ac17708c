//! What a member delivers.

ghost use Rattle.std.specs.Prelude.{◌≡◌, ◌≤◌, ◌++◌, ◌∷◌, [], true, length, is_some, IfOk, option_and_then, option_map};
ghost use Rattle.ct_abcast.specs.Cast.{batch_of};
ghost use Rattle.ct_instances.specs.Kept.{decision_at};
ghost use Rattle.ct_instances.specs.Named.{value_at};
ghost use Rattle.ct_table.specs.Table.{applied_all};
ghost use Rattle.ct_world.specs.Closing.{CanClose, CanFollow, with_closed};
ghost use Rattle.ct_world.specs.Seats.{IsDeliverable, batch_to_post, content, with_batch, with_delivery, with_next};

use crate::closing::Closing;
use crate::seat::Seat;
use ct_abcast::{Batch, Caster};
use ct_names::{Book, Instance, MsgSet, ValueId};
use ct_table::Table;
use std::alloc::{AllocError, Global};

impl Seat {
    /// Room to deliver the decision of the instance. It answers the decision's number in the book, and the batch that the
    /// member posts for it, where so many batches are posted: none, if it delivered fewer. What is kept stays, also where
    /// memory is refused.
    pub(crate) fn prepare_delivery(
        &mut self,
        alloc: Global,
        book: &Book,
        instance: Instance,
        posted: usize,
    ) -> Result<(ValueId, Option<Box<Batch>>), AllocError>
        requires { is_some (option_and_then (value_at book.now.values) (decision_at self.old.instances instance)) ≡ true }
        ensures same { content self.new ≡ content self.old }
        ensures ok { IfOk result (λ made. IsDeliverable book.now.values self.new instance posted made.0
            (option_map (λ b. b.value) made.1)) }
    {
        let number = self.instances.decided(instance).unwrap();
        let value = book.get(number).unwrap();
        let batch = self.batch_to_post(alloc, instance, value, posted)?;
        self.caster.prepare(value.len())?;
        Ok((number, batch))
    }

    // The batch that the member posts for the value of the instance.
    fn batch_to_post(
        &self,
        alloc: Global,
        instance: Instance,
        value: &MsgSet,
        posted: usize,
    ) -> Result<Option<Box<Batch>>, AllocError>
        ensures { IfOk result (λ batch. option_map (λ b. b.value) batch
            ≡ batch_to_post self.now.caster instance value.now posted) }
    {
        if self.caster.batches() < posted {
            return Ok(None);
        }
        let batch = self.caster.batch(alloc, instance, value)?;
        Ok(Some(Box::new(alloc, batch)?))
    }

    /// The member delivers the value, and closes the instance.
    pub(crate) fn close(&mut self, closing: Closing, value: &MsgSet)
        requires there { CanClose closing self.old }
        requires fits { self.old.caster.fits_batch ≡ true }
        requires room { length value.now ≤ self.old.caster.room }
        ensures { content self.new ≡ content (with_closed closing self.old value.now) }
    {
        match closing {
            Closing::Open => self.deliver(value),
            Closing::Next => self.follow(value),
        }
    }

    // The member delivers the value for its open instance, and closes it.
    fn deliver(&mut self, value: &MsgSet)
        requires open { is_some self.old.instances.part ≡ true }
        requires fits { self.old.caster.fits_batch ≡ true }
        requires room { length value.now ≤ self.old.caster.room }
        ensures { content self.new ≡ content (with_delivery self.old value.now) }
    {
        take_batch(&mut self.caster, &mut self.table, value);
        self.instances.close();
    }

    // The member, which has none open, begins its next instance, delivers the value for it, and closes it at once.
    fn follow(&mut self, value: &MsgSet)
        requires there { CanFollow self.old }
        requires fits { self.old.caster.fits_batch ≡ true }
        requires room { length value.now ≤ self.old.caster.room }
        ensures { content self.new ≡ content (with_batch (with_next self.old) value.now) }
    {
        self.caster.begin();
        take_batch(&mut self.caster, &mut self.table, value);
        self.instances.follow();
    }
}

// The messages of the value that were not delivered are delivered as one batch, and the table takes them.
fn take_batch(caster: &mut Caster, table: &mut Table, value: &MsgSet)
    requires fits { caster.old.fits_batch ≡ true }
    requires room { length value.now ≤ caster.old.room }
    ensures batches { caster.new.batches ≡ caster.old.batches ++ batch_of caster.old value.now ∷ [] }
    ensures received { caster.new.received ≡ caster.old.received }
    ensures instance { caster.new.instance ≡ caster.old.instance }
    ensures table { table.new ≡ applied_all table.old (batch_of caster.old value.now) }
{
    caster.deliver(value);
    let last = caster.batches() - 1;
    table.apply_all(caster.batch_at(last).unwrap());
}
