//! The instances with a decision.

ghost use Rattle.std.specs.Prelude.{◌≡◌, max};
ghost use Rattle.std.specs.List.{reduce};
ghost use Rattle.ct_instances.specs.Decided.{decided_instances};

use super::Instances;
use ct_names::Instance;

impl Instances {
    /// The largest instance for which a decision was got, None where there is none. Takes time linear in the number of
    /// instances for which something was got.
    pub fn last_decided(&self) -> Option<Instance>
        ensures { result ≡ reduce max (decided_instances self.now) }
    {
        let instances = self.entries.keys().copied();
        instances.filter(|k| self.decided(*k).is_some()).max()
    }
}
