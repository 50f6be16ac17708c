//! Smaller runs.

ghost use Rattle.std.specs.Prelude.{◌≡◌, ◌+◌, ◌<◌, ◌≤◌, true, false, IfOk, IfErr, IsSome, OnOk, length, All};
ghost use Rattle.ct_world.specs.Replay.{AllowsFirst};
ghost use Rattle.ct_world.specs.Setup.{setting_of};
ghost use Rattle.ct_play.specs.Faults.{IsShort};
ghost use Rattle.ct_play.specs.Goals.{shows};
ghost use Rattle.ct_shrink.specs.Faults.{IsFaultOf};
ghost use Rattle.ct_shrink.specs.Naming.{IsByContent};
ghost use Rattle.ct_shrink.specs.Runs.{IsNoLarger, IsRunOf};
ghost use Rattle.ct_shrink.specs.Trials.{IsLeast, IsTried};

use crate::first_run::first_run;
use crate::line::Line;
use crate::naming_members::names_members;
use crate::progress::Progress;
use crate::shrink_fault::ShrinkFault;
use crate::trials::Trials;
use crate::trying::trial;
use ct_grammar::Goal;
use ct_model::Step;
use ct_play::LineFault;
use ct_world::{Setup, World};
use std::alloc::Global;
use std::mem;

/// A run that was made smaller.
#[derive(Drop)]
pub struct Shrunk {
    /// The run.
    pub world: World,
    /// Its steps, by what they carry.
    pub lines: Vec<Line>,
    /// How many trials were made.
    pub trials: u32,
    /// Whether no more trials might be made, so that lines may be left that it could do without.
    pub is_stopped: bool,
}

/// Makes the run of these steps smaller, as long as it shows the goal, by so many trials at most. Somebody is told after each.
pub fn shrink<P: Progress>(
    alloc: Global,
    setup: Setup,
    steps: &[Step],
    goal: &Goal,
    tries: u32,
    progress: &mut P,
) -> Result<Shrunk, ShrinkFault>
    requires { AllowsFirst (setting_of setup) setup.cells steps.now (length steps.now) }
    // It is a run of the same group that shows the goal. Its lines are its steps, and name envelopes by what they carry.
    ensures run { IfOk result (λ shrunk. IsRunOf (shows goal.now) setup shrunk.lines.items shrunk.world.rehearsal) }
    ensures named { IfOk result (λ shrunk. All IsByContent shrunk.lines.items) }
    // It has no more steps than the first beginning of the given ones that shows the goal.
    ensures no_larger { IfOk result (λ shrunk. IsNoLarger (shows goal.now) setup steps.now (length shrunk.world.rehearsal.steps)) }
    // The trial without any one of its lines fails, unless no more trials might be made.
    ensures least { IfOk result (λ shrunk. shrunk.is_stopped ≡ false → IsLeast (shows goal.now) setup shrunk.lines.items) }
    ensures stopped { IfOk result (λ shrunk. shrunk.is_stopped ≡ true → shrunk.trials ≡ tries) }
    ensures few { IfOk result (λ shrunk. shrunk.trials ≤ tries) }
    ensures fault { IfErr result (IsFaultOf (shows goal.now) setup steps.now) }
{
    let Some(run) = first_run(alloc, &setup, steps, goal)? else {
        return Err(ShrinkFault::NotShown);
    };
    let mut world = run.world;
    let mut trials = Trials::new(alloc, setup.group, names_members(goal), run.lines, tries);
    match make_trials(alloc, &setup, goal, &mut trials, &mut world, progress) {
        Ok(()) => Ok(Shrunk {
            world,
            trials: trials.made(),
            is_stopped: !trials.is_least(),
            lines: trials.into_lines(),
        }),
        Err(fault) => {
            drop(world);
            drop(trials);
            Err(ShrinkFault::from(fault))
        }
    }
}

// Makes the trials that are asked for, until there are none. The world is that of the smallest run.
fn make_trials<P: Progress>(
    alloc: Global,
    setup: &Setup,
    goal: &Goal,
    trials: &mut Trials,
    world: &mut World,
    progress: &mut P,
) -> Result<(), LineFault>
    requires tried { IsTried (shows goal.now) setup.now trials.old world.old.rehearsal }
    ensures tried { OnOk result (IsTried (shows goal.now) setup.now trials.new world.new.rehearsal) }
    ensures no_more { OnOk result (length trials.new.lines ≤ length trials.old.lines) }
    ensures over { OnOk result (trials.new.made < trials.new.most → trials.new.settled ≡ length trials.new.lines) }
    ensures most { OnOk result (trials.new.most ≡ trials.old.most) }
    ensures err { IfErr result IsShort }
{
    while trials.ask()? {
        make_trial(alloc, setup, goal, trials, world)?;
        progress.tried(trials.made(), trials.lines().len());
    }
    Ok(())
}

// Makes the trial that is asked for, and tells what it left.
fn make_trial(
    alloc: Global,
    setup: &Setup,
    goal: &Goal,
    trials: &mut Trials,
    world: &mut World,
) -> Result<(), LineFault>
    requires tried { IsTried (shows goal.now) setup.now trials.old world.old.rehearsal }
    requires asked { IsSome trials.old.asked }
    ensures tried { OnOk result (IsTried (shows goal.now) setup.now trials.new world.new.rehearsal) }
    ensures no_more { OnOk result (length trials.new.lines ≤ length trials.old.lines) }
    ensures made { OnOk result (trials.new.made ≡ trials.old.made + 1) }
    ensures most { OnOk result (trials.new.most ≡ trials.old.most) }
    ensures err { IfErr result IsShort }
{
    let Some(run) = trial(alloc, setup, goal, trials.candidate())? else {
        trials.tell(None);
        return Ok(());
    };
    if trials.tell(Some(run.lines)) {
        drop(mem::replace(world, run.world));
    } else {
        drop(run.world);
    }
    Ok(())
}
