//! What a walk begins with.

ghost use Rattle.std.specs.Prelude.{◌≡◌, IfOk, IfErr, option_map};
ghost use Rattle.ct_model.specs.Rehearsal.{empty};
ghost use Rattle.ct_program.specs.FreeOptions.{InRange, setting_of};
ghost use Rattle.ct_play.specs.Goals.{uncut};
ghost use Rattle.ct_walk.specs.Options.{IsInRange};
ghost use Rattle.ct_walk.specs.Shown.{is_shown_by};

use crate::fault::WalkFault;
use crate::options::WalkOptions;
use ct_grammar::Goal;
use ct_names::Group;
use ct_play::Watch;
use ct_program::FreeOptions;
use ct_world::Setup;
use std::alloc::Global;

/// Whether the run without steps shows the goal, where there is one: a walk is looked at from its first turn on.
pub fn start_shows(
    alloc: Global,
    options: &WalkOptions,
    until: Option<&Goal>,
) -> Result<bool, WalkFault>
    requires { IsInRange options.now }
    ensures ok { IfOk result (λ shows. shows ≡ is_shown_by (option_map (λ goal. goal.now) until.entry)
        (empty (setting_of options.now.run) options.now.run.cells)) }
    ensures err { IfErr result (λ fault. fault ≡ WalkFault.Memory) }
{
    let watch = first_watch(alloc, &options.run, until)?;
    Ok(watch.shows())
}

// The stage before the first turn, on which the goal is looked for, where there is one.
pub(crate) fn first_watch<'g>(
    alloc: Global,
    options: &FreeOptions,
    until: Option<&'g Goal>,
) -> Result<Watch<'g>, WalkFault>
    requires { InRange options.now }
    ensures ok { IfOk result (λ watch. watch
        ≡ record { played = uncut (empty (setting_of options.now) options.now.cells); goal = option_map (λ goal. goal.now) until.entry }) }
    ensures err { IfErr result (λ fault. fault ≡ WalkFault.Memory) }
{
    let Some(group) = Group::new(options.members) else {
        unreachable!()
    };
    let Some(setup) = Setup::new(group, options.cells, options.batch) else {
        unreachable!()
    };
    match Watch::new(alloc, setup, until) {
        Ok(watch) => Ok(watch),
        Err(_) => Err(WalkFault::Memory),
    }
}
