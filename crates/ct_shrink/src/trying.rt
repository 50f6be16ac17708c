//! Trials of lines.

ghost use Rattle.std.specs.Prelude.{◌≡◌, ◌++◌, [], Some, OnOk, IfOk, IfErr, IfSome, option_map};
ghost use Rattle.ct_world.specs.Setup.{record_of};
ghost use Rattle.ct_play.specs.Faults.{IsShort};
ghost use Rattle.ct_play.specs.Goals.{shows, uncut};
ghost use Rattle.ct_shrink.specs.Lines.{after_taken, taken};
ghost use Rattle.ct_shrink.specs.Runs.{IsRunOf};
ghost use Rattle.ct_shrink.specs.Trials.{behind, trial};

use crate::kept_run::{KeptRun, push_line};
use crate::line::Line;
use crate::taking::take;
use ct_grammar::{Act, Goal};
use ct_names::Member;
use ct_play::{LineFault, Watch};
use ct_world::Setup;
use std::alloc::Global;

// The run that the trial of these lines leaves; None where it fails.
pub(crate) fn trial(
    alloc: Global,
    setup: &Setup,
    goal: &Goal,
    lines: &[Line],
) -> Result<Option<KeptRun>, LineFault>
    ensures lines { IfOk result (λ kept. option_map (λ run. run.lines.items) kept ≡ trial (shows goal.now) setup.now lines.now) }
    ensures run { IfOk result (λ kept. IfSome kept (λ run. IsRunOf (shows goal.now) setup.now run.lines.items run.world.rehearsal)) }
    ensures err { IfErr result IsShort }
{
    let mut watch = Watch::new(alloc, *setup, Some(goal))?.with_index();
    match kept_lines(alloc, setup, goal, lines, &mut watch) {
        Ok(Some(lines)) => Ok(Some(KeptRun {
            lines,
            world: watch.into_world(),
        })),
        Ok(None) => {
            drop(watch);
            Ok(None)
        }
        Err(fault) => {
            drop(watch);
            Err(fault)
        }
    }
}

// Tries the lines until the goal is shown, and answers those that were taken; None where it is never shown.
fn kept_lines(
    alloc: Global,
    setup: &Setup,
    goal: &Goal,
    lines: &[Line],
    watch: &mut Watch<'_>,
) -> Result<Option<Vec<Line>>, LineFault>
    requires played { watch.old.played ≡ uncut (record_of setup.now []) }
    requires goal { watch.old.goal ≡ Some goal.now }
    ensures lines { IfOk result (λ kept. option_map (λ kept. kept.items) kept ≡ trial (shows goal.now) setup.now lines.now) }
    ensures run { IfOk result (λ kept. IfSome kept (λ kept. IsRunOf (shows goal.now) setup.now kept.items watch.new.played.rehearsal)) }
    ensures err { IfErr result IsShort }
{
    // The contract names them.
    let _ = setup;
    let _ = goal;
    let mut kept = Vec::new(alloc);
    for line in lines {
        if watch.shows() {
            return Ok(Some(kept));
        }
        keep(watch, &mut kept, line.member, line.act)?;
    }
    if watch.shows() {
        Ok(Some(kept))
    } else {
        Ok(None)
    }
}

// Tries the line in which the member does this, and keeps it as it is taken.
fn keep(
    watch: &mut Watch<'_>,
    kept: &mut Vec<Line>,
    member: Member,
    act: Act,
) -> Result<(), LineFault>
    ensures kept { OnOk result (kept.new.items
        ≡ kept.old.items ++ behind (taken watch.old.played (record { member = member; act = act })) []) }
    ensures after { OnOk result (watch.new.played
        ≡ after_taken watch.old.played (taken watch.old.played (record { member = member; act = act }))) }
    ensures goal { watch.new.goal ≡ watch.old.goal }
    ensures err { IfErr result IsShort }
{
    if let Some(line) = take(watch, &Line { member, act })? {
        push_line(kept, line.member, line.act)?;
    }
    Ok(())
}
