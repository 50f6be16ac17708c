//! What is kept of one instance.

ghost use Rattle.std.specs.Prelude.{◌≡◌, IfOk};

use ct_names::ValueId;
use ct_rounds::Inbox;
use std::alloc::{AllocError, Global};

/// What one member got for one instance: the wires of its rounds, and its first decision.
#[derive(Drop)]
pub(crate) struct Entry {
    pub inbox: Inbox,
    pub decision: Option<ValueId>,
}

impl Entry {
    /// An entry of the same wires and decision, or the error where memory is refused.
    pub(crate) fn copy(&self, alloc: Global) -> Result<Entry, AllocError>
        ensures { IfOk result (λ entry. entry ≡ self.now) }
    {
        Ok(Entry {
            inbox: self.inbox.copy(alloc)?,
            decision: self.decision,
        })
    }
}
