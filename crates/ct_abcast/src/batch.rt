//! What one decision delivers.

ghost use Rattle.std.specs.Prelude.{◌≡◌, ◌↔◌, IsTrue};

use ct_names::{Instance, Message};
use std::marker::Model;

/// The messages that a member delivers for the decision of an instance, in their order.
#[derive(Debug, Drop)]
pub struct Batch {
    instance: Instance,
    messages: Vec<Message>,
}

impl Model for Batch {
    ghost use Rattle.ct_names.specs.Batch.{Batch as Plain};

    ghost Value = { Plain };

    ghost view = { λ batch. record { instance = batch.instance; messages = batch.messages.items } };
}

impl Batch {
    // The batch of the instance with these messages.
    pub(crate) fn of(instance: Instance, messages: Vec<Message>) -> Batch
        ensures instance { result.instance ≡ instance }
        ensures messages { result.messages ≡ messages.items }
    {
        Batch { instance, messages }
    }

    /// The instance that was decided.
    pub fn instance(&self) -> Instance
        ensures { result ≡ self.now.instance }
    {
        self.instance
    }

    /// The messages, in the order of delivery.
    pub fn messages(&self) -> &[Message]
        ensures { result.now ≡ self.now.messages }
    {
        &self.messages
    }

    /// Whether it is the batch of the instance with these messages, in this order.
    #[tactic(auto, using(crate::proofs::Same::in_batches))]
    pub fn is_same(&self, instance: Instance, messages: &[Message]) -> bool
        ensures { IsTrue result ↔ (self.now ≡ record { instance = instance; messages = messages.now }) }
    {
        instance == self.instance && self.messages() == messages
    }
}
