//! Whole walks.

ghost use Rattle.std.specs.Prelude.{◌≡◌, None, Some, IfOk, IfErr, option_map};
ghost use Rattle.ct_model.specs.Rehearsal.{state_of};
ghost use Rattle.ct_model.specs.Run.{run};
ghost use Rattle.ct_model.specs.Safe.{IsSafe};
ghost use Rattle.ct_walk.specs.Faults.{IsShort};
ghost use Rattle.ct_walk.specs.Nearness.{came_to, rounds_of};
ghost use Rattle.ct_walk.specs.Options.{IsInRange};
ghost use Rattle.ct_walk.specs.Shown.{is_shown_by};
ghost use Rattle.ct_walk.specs.Walking.{walked};

use crate::fault::WalkFault;
use crate::near_walk::NearWalk;
use crate::nearness::came;
use crate::options::WalkOptions;
use crate::sight::sight_in;
use crate::walker::Walker;
use ct_grammar::Goal;
use ct_world::World;
use std::alloc::Global;

/// Makes the walk that the options ask for, until it shows the goal, where there is one, and hands out the world after its last
/// turn. It takes neither lock nor thread, and the same options give the same record.
pub fn walk(alloc: Global, options: &WalkOptions, until: Option<&Goal>) -> Result<World, WalkFault>
    requires { IsInRange options.now }
    // The record is the definition's; want of memory, or of the board, gives none.
    ensures exact { IfOk result (λ world. world.rehearsal ≡ walked options.now (option_map (λ goal. goal.now) until.entry)) }
    ensures none { IfOk result (λ world. world.prepared ≡ None) }
    // It is a run that ends in the world's state, which is safe.
    ensures runs { IfOk result (λ world. run world.rehearsal.setting world.rehearsal.steps ≡ Some (state_of world.rehearsal)) }
    ensures safe { IfOk result (λ world. IsSafe world.rehearsal.setting (state_of world.rehearsal)) }
    ensures err { IfErr result IsShort }
{
    let walk = walk_near(alloc, options, until)?;
    // For its clauses: the record is a run, and the state is safe.
    let _ = walk.world.record();
    Ok(walk.world)
}

// The same, whether it shows the goal, the largest round in it, and what it came to of the goal.
#[tactic(auto, unfolding(crate::specs::Walking::walked, crate::specs::Nearness::came_to))]
pub(crate) fn walk_near(
    alloc: Global,
    options: &WalkOptions,
    until: Option<&Goal>,
) -> Result<NearWalk, WalkFault>
    requires { IsInRange options.now }
    ensures exact { IfOk result (λ walk. walk.world.rehearsal ≡ walked options.now (option_map (λ goal. goal.now) until.entry)) }
    ensures shows { IfOk result (λ walk. walk.shows
        ≡ is_shown_by (option_map (λ goal. goal.now) until.entry) (walked options.now (option_map (λ goal. goal.now) until.entry))) }
    ensures rounds { IfOk result (λ walk. walk.rounds ≡ rounds_of options.now (option_map (λ goal. goal.now) until.entry)) }
    ensures near { IfOk result (λ walk. walk.came_to ≡ came_to options.now (option_map (λ goal. goal.now) until.entry)) }
    ensures none { IfOk result (λ walk. walk.world.prepared ≡ None) }
    ensures err { IfErr result IsShort }
{
    let mut walker = Walker::new(alloc, options, until)?;
    let most = walker.most_turns(options.run.turns);
    let rounds = walker.walk(options, most)?;
    let shows = walker.shows();
    let world = walker.into_world();
    let came_to = came(sight_in(until), rounds, &world);
    Ok(NearWalk {
        world,
        shows,
        rounds,
        came_to,
    })
}
