//! Room for what is to come, the only calls that take memory.

ghost use Rattle.std.specs.Prelude.{◌≡◌, ℕ, false, IsTrue, OnOk, OnErr};
ghost use Rattle.ct_model.specs.declared.wire.Wire.{Wire as AnyWire};
ghost use Rattle.ct_instances.specs.Kept.{ballots_of, decision_at, has_room, has_room_of, has_room_open};

use super::Instances;
use crate::entry::Entry;
use ct_names::{Instance, Round};
use ct_rounds::{Inbox, Wire, find_mut, index_in_order};
use std::alloc::AllocError;

impl Instances {
    /// Makes room for the instance to be opened. Where memory is refused that room was missing, and nothing changes.
    pub fn prepare_open(&mut self, instance: Instance) -> Result<(), AllocError>
        ensures ok { OnOk result (IsTrue (has_room_open self.new instance)) }
        ensures err { OnErr result (self.new ≡ self.old) }
        ensures refused { OnErr result (has_room_open self.old instance ≡ false) }
        ensures ballots { (k r : ℕ) → ballots_of self.new k r ≡ ballots_of self.old k r }
        ensures decisions { (k : ℕ) → decision_at self.new k ≡ decision_at self.old k }
        ensures rooms_open { (k : ℕ) → IsTrue (has_room_open self.old k) → IsTrue (has_room_open self.new k) }
        ensures rooms { (k r : ℕ) → IsTrue (has_room_of self.old k r) → IsTrue (has_room_of self.new k r) }
        ensures rest { self.new ≡ record self.old { entries = self.new.entries } }
    {
        if self.has_room_open(instance) {
            return Ok(());
        }
        let entry = Entry {
            inbox: Inbox::new(self.alloc),
            decision: None,
        };
        self.entries.insert(instance, entry)?;
        Ok(())
    }

    /// Makes room for a note of the wire. Where memory is refused that room was missing. What was got stays, Ok or not.
    pub fn prepare(&mut self, wire: &Wire) -> Result<(), AllocError>
        ensures ok { OnOk result (IsTrue (has_room self.new wire.now)) }
        ensures refused { OnErr result (has_room self.old wire.now ≡ false) }
        ensures ballots { (k r : ℕ) → ballots_of self.new k r ≡ ballots_of self.old k r }
        ensures decisions { (k : ℕ) → decision_at self.new k ≡ decision_at self.old k }
        ensures rooms_open { (k : ℕ) → IsTrue (has_room_open self.old k) → IsTrue (has_room_open self.new k) }
        ensures rooms { (w : AnyWire ℕ) → IsTrue (has_room self.old w) → IsTrue (has_room self.new w) }
        ensures rest { self.new ≡ record self.old { entries = self.new.entries } }
    {
        match (wire.instance(), wire.vote_round()) {
            (None, _) => Ok(()),
            (Some(instance), None) => self.prepare_open(instance),
            (Some(instance), Some(round)) => self.prepare_round(instance, round),
        }
    }

    fn prepare_round(&mut self, instance: Instance, round: Round) -> Result<(), AllocError>
        ensures ok { OnOk result (IsTrue (has_room_of self.new instance round)) }
        ensures refused { OnErr result (has_room_of self.old instance round ≡ false) }
        ensures ballots { (k r : ℕ) → ballots_of self.new k r ≡ ballots_of self.old k r }
        ensures decisions { (k : ℕ) → decision_at self.new k ≡ decision_at self.old k }
        ensures rooms_open { (k : ℕ) → IsTrue (has_room_open self.old k) → IsTrue (has_room_open self.new k) }
        ensures rooms { (k r : ℕ) → IsTrue (has_room_of self.old k r) → IsTrue (has_room_of self.new k r) }
        ensures rest { self.new ≡ record self.old { entries = self.new.entries } }
    {
        match find_mut(&mut self.entries, &instance, index_in_order(instance)) {
            Some(entry) => entry.inbox.prepare(round),
            None => {
                let mut inbox = Inbox::new(self.alloc);
                inbox.prepare(round)?;
                let entry = Entry {
                    inbox,
                    decision: None,
                };
                self.entries.insert(instance, entry)?;
                Ok(())
            }
        }
    }
}
