//! What is known of the instances.

ghost use Rattle.std.specs.Prelude.{◌≡◌, IfSome, option_map, option_copied};
ghost use Rattle.ct_instances.specs.Kept.{decision_at, entry_of, has_room, has_room_of, has_room_open};
ghost use Rattle.ct_instances.specs.Opened.{IsPart};
ghost use Rattle.ct_instances.specs.Steps.{open_rounds};

use super::Instances;
use crate::entry::Entry;
use ct_names::{Instance, Round, ValueId};
use ct_rounds::{Consensus, Inbox, Wire, find, index_in_order};

impl Instances {
    /// The last instance that was begun, 0 before the first.
    pub fn last(&self) -> Instance
        ensures { result ≡ self.now.last }
    {
        self.last
    }

    /// The member's part in the open instance, None where none is open.
    pub fn current(&self) -> Option<&Consensus>
        ensures value { option_copied result ≡ self.now.part }
        ensures part { IfSome self.now.part (IsPart self.now.members self.now.me self.now.last self.now.entries) }
    {
        self.part.as_ref()
    }

    /// What was got for the open instance, None where none is open.
    pub fn inbox(&self) -> Option<&Inbox>
        ensures value { option_copied result ≡ option_map (λ _. open_rounds self.now) self.now.part }
    {
        if self.part.is_none() {
            return None;
        }
        match self.entry(self.last) {
            Some(entry) => Some(&entry.inbox),
            None => unreachable!(),
        }
    }

    /// The decision that was got for the instance: the first that was noted.
    pub fn decided(&self, instance: Instance) -> Option<ValueId>
        ensures { result ≡ decision_at self.now instance }
    {
        match self.entry(instance) {
            Some(entry) => entry.decision,
            None => None,
        }
    }

    /// Whether the instance can be opened without memory.
    pub fn has_room_open(&self, instance: Instance) -> bool
        ensures { result ≡ has_room_open self.now instance }
    {
        self.entry(instance).is_some()
    }

    /// Whether the wire can be noted without memory; a message always.
    pub fn has_room(&self, wire: &Wire) -> bool
        ensures { result ≡ has_room self.now wire.now }
    {
        match (wire.instance(), wire.vote_round()) {
            (None, _) => true,
            (Some(instance), None) => self.has_room_open(instance),
            (Some(instance), Some(round)) => self.has_room_of(instance, round),
        }
    }

    fn has_room_of(&self, instance: Instance, round: Round) -> bool
        ensures { result ≡ has_room_of self.now instance round }
    {
        match self.entry(instance) {
            Some(entry) => entry.inbox.has_room(round),
            None => false,
        }
    }

    // What is kept of the instance. Instances mostly get their entries in order.
    pub(super) fn entry(&self, instance: Instance) -> Option<&Entry>
        ensures { option_copied result ≡ entry_of self.now instance }
    {
        find(&self.entries, &instance, index_in_order(instance))
    }
}
