//! The beginning of a record that shows a goal.

ghost use Rattle.std.specs.Prelude.{◌≡◌, ◌≤◌, [], Ok, None, Some, IfOk, IfErr, IfSome, OnOk, MatchOption, length, All};
ghost use Rattle.ct_model.specs.Cause.{cause};
ghost use Rattle.ct_world.specs.Replay.{AllowsFirst};
ghost use Rattle.ct_world.specs.Setup.{record_of, setting_of};
ghost use Rattle.ct_play.specs.Faults.{IsShort};
ghost use Rattle.ct_play.specs.Played.{with_step};
ghost use Rattle.ct_play.specs.Goals.{shows, uncut};
ghost use Rattle.ct_shrink.specs.Lines.{after_line};
ghost use Rattle.ct_shrink.specs.Naming.{IsByContent};
ghost use Rattle.ct_shrink.specs.Runs.{IsFirstOf, IsNeverShown};

use crate::kept_run::{KeptRun, push_line};
use crate::line::Line;
use crate::naming::line_of;
use ct_grammar::Goal;
use ct_model::Step;
use ct_play::{LineFault, Watch};
use ct_world::Setup;
use std::alloc::Global;

// The first beginning of the record that shows the goal.
pub(crate) fn first_run(
    alloc: Global,
    setup: &Setup,
    steps: &[Step],
    goal: &Goal,
) -> Result<Option<KeptRun>, LineFault>
    requires { AllowsFirst (setting_of setup.now) setup.now.cells steps.now (length steps.now) }
    ensures first { IfOk result (λ first. MatchOption first (IsNeverShown (shows goal.now) setup.now steps.now)
        (λ run. IsFirstOf (shows goal.now) setup.now steps.now run.lines.items run.world.rehearsal)) }
    ensures named { IfOk result (λ first. IfSome first (λ run. All IsByContent run.lines.items)) }
    ensures err { IfErr result IsShort }
{
    let mut watch = Watch::new(alloc, *setup, Some(goal))?.with_index();
    match first_lines(alloc, setup, steps, goal, &mut watch) {
        Ok(Some(lines)) => Ok(Some(KeptRun {
            lines,
            world: watch.into_world(),
        })),
        Ok(None) => {
            drop(watch);
            Ok(None)
        }
        Err(fault) => {
            drop(watch);
            Err(fault)
        }
    }
}

// Takes the steps until the goal is shown, and answers their lines; None where it is never shown.
fn first_lines(
    alloc: Global,
    setup: &Setup,
    steps: &[Step],
    goal: &Goal,
    watch: &mut Watch<'_>,
) -> Result<Option<Vec<Line>>, LineFault>
    requires steps { AllowsFirst (setting_of setup.now) setup.now.cells steps.now (length steps.now) }
    requires played { watch.old.played ≡ uncut (record_of setup.now []) }
    requires goal { watch.old.goal ≡ Some goal.now }
    ensures first { IfOk result (λ first. MatchOption first (IsNeverShown (shows goal.now) setup.now steps.now)
        (λ lines. IsFirstOf (shows goal.now) setup.now steps.now lines.items watch.new.played.rehearsal)) }
    ensures named { IfOk result (λ first. IfSome first (λ lines. All IsByContent lines.items)) }
    ensures err { IfErr result IsShort }
{
    // The contract names them.
    let _ = setup;
    let _ = goal;
    let mut lines = Vec::new(alloc);
    for (i, step) in steps.iter().enumerate() {
        // The invariant names it.
        let _ = i;
        if watch.shows() {
            return Ok(Some(lines));
        }
        let line = step_by(watch, *step)?;
        push_line(&mut lines, line.member, line.act)?;
    }
    if watch.shows() {
        Ok(Some(lines))
    } else {
        Ok(None)
    }
}

// Takes the step, and answers its line.
#[tactic(auto, unfolding(crate::specs::Lines::after_line, ct_play::specs::Acting::stepped))]
fn step_by(watch: &mut Watch<'_>, step: Step) -> Result<Line, LineFault>
    requires { cause watch.old.played.rehearsal step ≡ None }
    ensures line { IfOk result (λ line. after_line watch.old.played line ≡ Ok watch.new.played) }
    ensures named { IfOk result IsByContent }
    ensures step { OnOk result (watch.new.played ≡ with_step watch.old.played step) }
    ensures goal { watch.new.goal ≡ watch.old.goal }
    ensures err { IfErr result IsShort }
{
    let line = line_of(watch.stage(), step);
    watch.step(step)?;
    Ok(line)
}
