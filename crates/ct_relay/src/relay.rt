//! The first receipts of a member.

ghost use Rattle.std.specs.Prelude.{◌≡◌, [], false, IsTrue, IfOk, OnOk, OnErr};
ghost use Rattle.ct_names.specs.Membership.{IsWithoutRepeats};
ghost use Rattle.ct_relay.specs.Taken.{is_first, with_id, action_of};

use crate::action::Action;
use crate::known::Known;
use crate::relay_id::RelayId;
use ct_names::Member;
use indexmap::IndexSet;
use std::alloc::{AllocError, Global};
use std::marker::Model;

/// Which messages and decisions a member has received, each taken at its first receipt (Chandra and Toueg, section 4).
#[derive(Drop)]
pub struct Relay {
    me: Member,
    // All that was taken, in the order of first receipt.
    order: Vec<RelayId>,
    // What the marks cover of it.
    known: Known,
    // The rest: what the marks didn't cover when it was taken.
    others: IndexSet<RelayId>,
}

// Contracts see the member, what it took in the order of first receipt, and whether one more fits.
impl Model for Relay {
    ghost use Rattle.std.specs.Prelude.{nat_lt, ◌&&◌};
    ghost use Rattle.std.specs.Vec.{vec_len, vec_capacity};
    ghost use Rattle.indexmap.specs.IndexSet.{spare};
    ghost use Rattle.ct_relay.specs.Marks.{IsKept};
    ghost use Rattle.ct_relay.specs.Taken.{Taken};

    ghost Value = { Taken };

    ghost view = { λ relay. record {
      me = relay.me;
      ids = relay.order.items;
      has_room =
          nat_lt (vec_len relay.order) (vec_capacity relay.order) && nat_lt 0 (spare relay.others);
    } };

    ghost invariant = { λ relay. IsKept relay.order.items relay.known relay.others.keys };
}

impl Relay {
    /// The receipts of the member `me`, which has taken nothing yet. Whether there is room for a first one is not said.
    pub fn new(alloc: Global, me: Member) -> Relay
        ensures me { result.me ≡ me }
        ensures ids { result.ids ≡ [] }
    {
        Relay {
            me,
            order: Vec::new(alloc),
            known: Known::new(alloc),
            others: IndexSet::new(alloc),
        }
    }

    /// The same receipts of the same member, or the error where memory is refused. Whether the copy has room is not said.
    pub fn copy(&self, alloc: Global) -> Result<Relay, AllocError>
        ensures me { IfOk result (λ relay. relay.me ≡ self.now.me) }
        ensures ids { IfOk result (λ relay. relay.ids ≡ self.now.ids) }
    {
        Ok(Relay {
            me: self.me,
            order: Vec::from_slice(alloc, &self.order)?,
            known: self.known.copy(alloc)?,
            others: self.others.clone()?,
        })
    }

    /// The member whose receipts these are.
    pub fn me(&self) -> Member
        ensures { result ≡ self.now.me }
    {
        self.me
    }

    /// Whether it was not taken yet.
    pub fn first(&self, id: RelayId) -> bool
        ensures value { result ≡ is_first self.now.ids id }
        ensures once { IsWithoutRepeats self.now.ids }
    {
        match self.known.told(id) {
            Some(taken) => !taken,
            None => !self.others.contains(&id),
        }
    }

    /// Whether one more can be taken: so it is after a `prepare` that was Ok.
    pub fn has_room(&self) -> bool
        ensures { result ≡ self.now.has_room }
    {
        self.order.len() < self.order.capacity() && self.others.len() < self.others.capacity()
    }

    /// Makes room for one more. Where memory is refused there was no room. Nothing else changes, Ok or not.
    pub fn prepare(&mut self) -> Result<(), AllocError>
        ensures me { self.new.me ≡ self.old.me }
        ensures ids { self.new.ids ≡ self.old.ids }
        ensures ok { OnOk result (IsTrue self.new.has_room) }
        ensures room { IsTrue self.old.has_room → IsTrue self.new.has_room }
        ensures refused { OnErr result (self.old.has_room ≡ false) }
    {
        self.order.reserve(1)?;
        self.others.reserve(1)?;
        self.known.lengthen(self.others.as_slice());
        Ok(())
    }

    /// Takes it, and says what to do with it: at its first receipt it is delivered, and relayed unless this member sent
    /// it; later nothing is done. It takes no memory: a first receipt needs room, which has to be prepared anew for the
    /// next one.
    pub fn take(&mut self, id: RelayId, sender: Member) -> Action
        requires { IsTrue (is_first self.old.ids id) → IsTrue self.old.has_room }
        ensures action { result ≡ action_of self.old id sender }
        ensures ids { self.new.ids ≡ with_id self.old.ids id }
        ensures me { self.new.me ≡ self.old.me }
    {
        let deliver = self.first(id);
        if deliver {
            self.order.push(id).unwrap();
            if !self.known.add(id) {
                self.others.insert(id).unwrap();
            }
        }
        Action {
            relay: deliver && sender != self.me,
            deliver,
        }
    }
}
