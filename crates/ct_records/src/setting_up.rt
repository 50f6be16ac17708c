//! What a record's world is made with.

ghost use Rattle.std.specs.Prelude.{◌≡◌};
ghost use Rattle.ct_world.specs.Setup.{record_of};
ghost use Rattle.ct_records.specs.View.{rehearsal_of};

use crate::script::Script;
use ct_world::Setup;

impl Script {
    /// What the record's world is made with.
    pub fn setup(&self) -> Setup
        ensures { record_of result self.now.steps.items ≡ rehearsal_of self.now }
    {
        Setup {
            group: self.group,
            cells: self.cells,
            bound: self.batch,
        }
    }
}
