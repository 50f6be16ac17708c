//! How far walks go that show what is looked for.

ghost use Rattle.std.specs.Prelude.{◌≡◌, length, IfOk, IfErr, None, Some, if◌then◌else◌};
ghost use Rattle.ct_walk.specs.Faults.{IsShort};
ghost use Rattle.ct_walk.specs.Options.{IsInRange};
ghost use Rattle.ct_walk.specs.Sizes.{size_if_shown};

use crate::fault::WalkFault;
use crate::near_walk::NearWalk;
use crate::options::WalkOptions;
use crate::walk_size::WalkSize;
use crate::walking::walk_near;
use ct_grammar::Goal;
use std::alloc::Global;

/// Makes the walk of this seed, in place of the options' one, until it shows the goal, and answers how far it goes; None where
/// it doesn't show it.
pub fn size_if_shown(
    alloc: Global,
    options: &WalkOptions,
    goal: &Goal,
    seed: u32,
) -> Result<Option<WalkSize>, WalkFault>
    requires { IsInRange options.now }
    ensures ok { IfOk result (λ size. size ≡ size_if_shown options.now goal.now seed) }
    ensures err { IfErr result IsShort }
{
    let options = options.with_seed(seed);
    let walk = walk_near(alloc, &options, Some(goal))?;
    Ok(size_shown(&walk))
}

// How far the walk goes, where it shows what it was made until.
fn size_shown(walk: &NearWalk) -> Option<WalkSize>
    ensures { result ≡
        (if walk.now.shows then Some (record { steps = length walk.now.world.rehearsal.steps; round = walk.now.rounds }) else None) }
{
    if !walk.shows {
        return None;
    }
    Some(WalkSize {
        steps: walk.world.record().len(),
        round: walk.rounds,
    })
}
