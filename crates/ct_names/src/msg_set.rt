//! Sets of messages.

ghost use Rattle.std.specs.Prelude.{◌≡◌, ◌==◌, ◌++◌, ◌∷◌, [], length, take, OnOk, OnErr, IfOk};
ghost use Rattle.ct_names.specs.Value.{has, minus, ordered, IsOrdered};

use crate::message::Message;
use std::alloc::{AllocError, Global};
use std::marker::Model;

/// A set of messages. Contracts see the list of them in the order of messages, each once.
#[derive(Debug, Drop)]
pub struct MsgSet {
    items: Vec<Message>,
}

impl Model for MsgSet {
    ghost use Rattle.std.specs.Prelude.{List};
    ghost use Rattle.ct_names.specs.Message.{Message as Plain};
    ghost use Rattle.ct_names.specs.Value.{IsOrdered};

    ghost Value = { List Plain };

    ghost view = { λ set. set.items.items };

    ghost invariant = { λ set. IsOrdered set.items.items };
}

impl MsgSet {
    /// The set with no messages.
    pub fn new(alloc: Global) -> MsgSet
        ensures { result ≡ [] }
    {
        MsgSet {
            items: Vec::new(alloc),
        }
    }

    /// The set of the list's messages, or the error where memory is refused.
    pub fn of(alloc: Global, list: &[Message]) -> Result<MsgSet, AllocError>
        ensures { IfOk result (λ set. set ≡ ordered list.now) }
    {
        let mut items = Vec::from_slice(alloc, list)?;
        items.sort_unstable();
        items.dedup();
        Ok(MsgSet { items })
    }

    /// Adds the message if it isn't there. Where memory is refused the set stays as it was.
    pub fn add(&mut self, message: Message) -> Result<(), AllocError>
        ensures ok { OnOk result (self.new ≡ ordered (self.old ++ message ∷ [])) }
        ensures err { OnErr result (self.new ≡ self.old) }
    {
        if let Err(place) = self.items.binary_search(&message) {
            self.items.insert(place, message)?;
        }
        Ok(())
    }

    /// The messages that are not in the list, or the error where memory is refused.
    pub fn minus(&self, alloc: Global, list: &[Message]) -> Result<MsgSet, AllocError>
        ensures { IfOk result (λ set. set ≡ minus self.now list.now) }
    {
        let taken = MsgSet::of(alloc, list)?;
        let mut items = Vec::new(alloc);
        for message in &self.items {
            if !taken.contains(message) {
                items.push(*message)?;
            }
        }
        Ok(MsgSet { items })
    }

    /// Keeps the first messages of the set, as many as the count or all.
    pub fn truncate(&mut self, count: usize)
        ensures { self.new ≡ take count self.old }
    {
        self.items.truncate(count);
    }

    /// A second set of the same messages, or the error where memory is refused.
    pub fn copy(&self, alloc: Global) -> Result<MsgSet, AllocError>
        ensures { IfOk result (λ set. set ≡ self.now) }
    {
        Ok(MsgSet {
            items: Vec::from_slice(alloc, &self.items)?,
        })
    }

    /// Whether the message is in the set.
    pub fn contains(&self, message: &Message) -> bool
        ensures { result ≡ has self.now message.now }
    {
        self.items.binary_search(message).is_ok()
    }

    /// Whether the set has no messages.
    pub fn is_empty(&self) -> bool
        ensures { result ≡ (length self.now == 0) }
    {
        self.items.is_empty()
    }

    /// The number of messages.
    pub fn len(&self) -> usize
        ensures { result ≡ length self.now }
    {
        self.items.len()
    }

    /// The messages in order.
    pub fn items(&self) -> &[Message]
        ensures value { result.now ≡ self.now }
        ensures ordered { IsOrdered self.now }
    {
        &self.items
    }
}
