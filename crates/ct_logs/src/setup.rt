//! What worlds were made with, and what is true of each.

ghost use Rattle.std.specs.Prelude.{◌≡◌};
ghost use Rattle.ct_model.specs.Lawful.{IsLawful};
ghost use Rattle.ct_world.specs.Setup.{setting_of};

use ct_world::{Setup, World};

// What the world was made with.
pub(crate) fn setup_of(world: &World) -> Setup
    ensures setting { setting_of result ≡ world.now.rehearsal.setting }
    ensures cells { result.cells ≡ world.now.rehearsal.cells }
{
    Setup {
        group: world.group(),
        cells: world.cells(),
        bound: world.bound(),
    }
}

// A world's record is a run.
pub(crate) fn lawful(world: &World)
    ensures { IsLawful world.now.rehearsal }
{
    let _ = world.record();
}
