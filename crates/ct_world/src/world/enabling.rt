//! Whether a step is allowed.

ghost use Rattle.std.specs.Prelude.{◌≡◌, IsOk, OnOk};
ghost use Rattle.ct_model.specs.Allowed.{IsAllowed};
ghost use Rattle.ct_model.specs.Cause.{cause};
ghost use Rattle.ct_world.specs.World.{verdict};

use crate::world::World;
use ct_model::Step;
use ct_names::Refusal;

impl World {
    /// Whether the step is allowed now, want of memory apart, and why it is not. It is allowed exactly where the next state
    /// is defined, a serial that it takes or moves waits, one that it puts back doesn't, and no limit is passed. Takes no memory.
    pub fn enabled(&self, step: &Step) -> Result<(), Refusal>
        ensures value { result ≡ verdict (cause self.now.rehearsal step.now) }
        ensures allowed { OnOk result (IsAllowed self.now.rehearsal step.now) }
        ensures all_allowed { IsAllowed self.now.rehearsal step.now → IsOk result }
    {
        self.kept.cause(step)
    }
}
