//! The instances once more.

ghost use Rattle.std.specs.Prelude.{◌≡◌, IfOk};

use super::Instances;
use indexmap::IndexMap;
use std::alloc::{AllocError, Global};

impl Instances {
    /// The same instances of the same member, or the error where memory is refused.
    pub fn copy(&self, alloc: Global) -> Result<Instances, AllocError>
        ensures { IfOk result (λ copy. copy ≡ self.now) }
    {
        let mut entries = IndexMap::new(alloc);
        entries.reserve(self.entries.len())?;
        for (instance, entry) in &self.entries {
            entries.insert(*instance, entry.copy(alloc)?)?;
        }
        Ok(Instances {
            group: self.group,
            me: self.me,
            last: self.last,
            part: self.part,
            entries,
            alloc,
        })
    }
}
