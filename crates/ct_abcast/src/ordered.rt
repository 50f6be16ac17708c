//! What is pending at a member, in order.

ghost use Rattle.std.specs.Prelude.{◌≡◌, ◌&&◌, [], not, length, take, IfOk, OnOk};
ghost use Rattle.ct_names.specs.Message.{Message as Plain};
ghost use Rattle.ct_names.specs.Value.{has, ordered};
ghost use Rattle.ct_abcast.specs.Batches.{joined};
ghost use Rattle.ct_abcast.specs.Ordered.{IsFed};

use crate::delivered::Delivered;
use ct_names::{Message, MsgSet};
use std::alloc::{AllocError, Global};
use std::collections::BTreeSet;
use std::marker::Model;

/// Of the first received messages those that were not delivered, in order. It is fed with the later ones when they are asked for.
#[derive(Drop)]
pub(crate) struct Ordered {
    messages: BTreeSet<Message>,
    // How many of the received messages it was fed.
    fed: usize,
}

impl Model for Ordered {
    ghost use Rattle.ct_abcast.specs.Ordered.{Fed};

    ghost Value = { Fed };

    ghost view = { λ o. record { messages = o.messages.keys; fed = o.fed } };
}

impl Ordered {
    // Nothing was fed.
    pub(crate) fn new(alloc: Global) -> Ordered
        ensures messages { result.messages ≡ [] }
        ensures fed { result.fed ≡ 0 }
    {
        Ordered {
            messages: BTreeSet::new(alloc),
            fed: 0,
        }
    }

    // Feeds it with the rest of what was received. Where memory is refused, what was fed until then stays.
    pub(crate) fn feed(
        &mut self,
        received: &[Message],
        delivered: &Delivered,
    ) -> Result<(), AllocError>
        requires { IsFed self.old received.now (joined delivered.now.batches) }
        ensures kept { IsFed self.new received.now (joined delivered.now.batches) }
        ensures all { OnOk result (self.new.fed ≡ length received.now) }
    {
        while self.fed < received.len() {
            let message = received[self.fed];
            if !delivered.contains(&message) {
                self.messages.insert(message)?;
            }
            self.fed += 1;
        }
        Ok(())
    }

    // Takes the messages out.
    pub(crate) fn take_out(&mut self, messages: &[Message])
        ensures left { (m : Plain) → has self.new.messages m ≡ (has self.old.messages m && not (has messages.now m)) }
        ensures fed { self.new.fed ≡ self.old.fed }
    {
        for message in messages {
            self.messages.remove(message);
        }
    }

    // The first messages, as many as the bound or all.
    pub(crate) fn first(&self, alloc: Global, bound: u32) -> Result<MsgSet, AllocError>
        ensures { IfOk result (λ set. set ≡ take bound (ordered self.now.messages)) }
    {
        let mut set = MsgSet::new(alloc);
        for message in self.messages.iter().take(bound as usize) {
            set.add(*message)?;
        }
        Ok(set)
    }
}
