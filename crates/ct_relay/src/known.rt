//! Which messages and decisions were taken, as marks.

ghost use Rattle.std.specs.Prelude.{◌≡◌, ◌||◌, [], List, option_map, IfOk};
ghost use Rattle.std.specs.List.{list_any};
ghost use Rattle.ct_relay.specs.declared.relay_id.RelayId.{RelayId as Id};
ghost use Rattle.ct_relay.specs.Marks.{covers_id, told_of, with_mark_of, IsKept};
ghost use Rattle.ct_relay.specs.Taken.{is_id};

use crate::marks::Marks;
use crate::relay_id::RelayId;
use std::alloc::{AllocError, Global};

/// Marks of the messages, by number and origin, and of the decisions, by instance and round.
#[derive(Drop)]
pub(crate) struct Known {
    messages: Marks,
    decisions: Marks,
}

impl Known {
    /// Marks that cover nothing.
    pub(crate) fn new(alloc: Global) -> Known
        ensures messages { result.messages ≡ [] }
        ensures decisions { result.decisions ≡ [] }
    {
        Known {
            messages: Marks::new(alloc),
            decisions: Marks::new(alloc),
        }
    }

    /// The same marks once more, or the error where memory is refused.
    pub(crate) fn copy(&self, alloc: Global) -> Result<Known, AllocError>
        ensures { IfOk result (λ copy. copy ≡ self.now) }
    {
        Ok(Known {
            messages: self.messages.copy(alloc)?,
            decisions: self.decisions.copy(alloc)?,
        })
    }

    /// Whether it was taken, where the marks cover it.
    pub(crate) fn told(&self, id: RelayId) -> Option<bool>
        ensures { result ≡ told_of self.now id }
    {
        match id {
            RelayId::Data { origin, number } => self.messages.told(u32::from(origin), number),
            RelayId::Dec { instance, round } => self.decisions.told(round, instance),
        }
    }

    /// Notes that it was taken, where the marks cover it. Whether they do.
    pub(crate) fn add(&mut self, id: RelayId) -> bool
        ensures covered { result ≡ covers_id self.old id }
        ensures marks { self.new ≡ with_mark_of self.old id }
    {
        match id {
            RelayId::Data { origin, number } => self.messages.add(u32::from(origin), number),
            RelayId::Dec { instance, round } => self.decisions.add(round, instance),
        }
    }

    /// Lets the marks cover more numbers where larger ones are coming, and marks what the others have of them. Where
    /// memory is refused the marks stay as they were.
    pub(crate) fn lengthen(&mut self, others: &[RelayId])
        ensures { (order : List Id) → IsKept order self.old others.now → IsKept order self.new others.now }
    {
        let messages = self.messages.grow();
        let decisions = self.decisions.grow();
        if messages || decisions {
            self.add_all(others);
        }
    }

    // Notes that all these were taken, where the marks cover them.
    fn add_all(&mut self, ids: &[RelayId])
        ensures { (id : Id) → told_of self.new id ≡ option_map (λ b. b || list_any (is_id id) ids.now) (told_of self.old id) }
    {
        for id in ids {
            self.add(*id);
        }
    }
}
