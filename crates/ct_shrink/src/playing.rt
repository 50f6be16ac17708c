//! Lines that are tried in a world of the caller's, step by step, and the lines of its record.

ghost use Rattle.std.specs.Prelude.{◌≡◌, ◌≤◌, [], Some, None, IfOk, IfErr, OnOk, drop, length, All};
ghost use Rattle.ct_model.specs.Cause.{cause};
ghost use Rattle.ct_model.specs.Rehearsal.{extended};
ghost use Rattle.ct_world.specs.Replay.{AllowsFirst};
ghost use Rattle.ct_world.specs.Setup.{record_of, setting_of};
ghost use Rattle.ct_play.specs.Faults.{IsShort};
ghost use Rattle.ct_shrink.specs.Naming.{IsByContent};
ghost use Rattle.ct_shrink.specs.Playing.{first_for, line_of, lines_behind, lines_of, step_by, step_for};

use crate::kept_run::push_line;
use crate::line::Line;
use crate::naming::{line_of, other_line};
use ct_model::Step;
use ct_play::{LineFault, Stage, step_of};
use ct_world::{Setup, World};
use std::alloc::Global;

// The place behind the first line from this place on that is taken on the stage, and its step; behind all lines, where none is.
pub(crate) fn first_for(stage: &Stage, lines: &[Line], from: usize) -> (usize, Option<Step>)
    requires { from ≤ length lines.now }
    ensures step { result ≡ first_for stage.now.rehearsal from (drop from lines.now) }
    ensures within { result.0 ≤ length lines.now }
{
    for i in from..lines.len() {
        if let Some(step) = step_for(stage, &lines[i]) {
            return (i + 1, Some(step));
        }
    }
    (lines.len(), None)
}

// The step by which the line is taken.
#[tactic(auto, unfolding(crate::specs::Playing::step_for, crate::specs::Playing::step_by))]
fn step_for(stage: &Stage, line: &Line) -> Option<Step>
    ensures { result ≡ step_for stage.now.rehearsal line.now }
{
    if let Some(step) = step_by(stage, line) {
        return Some(step);
    }
    match other_line(stage, line) {
        None => None,
        Some(other) => step_by(stage, &other),
    }
}

// The step of the line, where it is allowed.
#[tactic(auto, unfolding(crate::specs::Playing::step_by))]
fn step_by(stage: &Stage, line: &Line) -> Option<Step>
    ensures { result ≡ step_by stage.now.rehearsal (Some line.now) }
{
    let step = step_of(stage, line.member, line.act).ok()?;
    match stage.world().enabled(&step) {
        Ok(()) => Some(step),
        Err(_) => None,
    }
}

// The lines of the world's record.
pub(crate) fn lines_of(alloc: Global, world: &World) -> Result<Vec<Line>, LineFault>
    ensures lines { IfOk result (λ lines. lines.items ≡ lines_of world.now.rehearsal) }
    ensures named { IfOk result (λ lines. All IsByContent lines.items) }
    ensures err { IfErr result IsShort }
{
    let setup = Setup {
        group: world.group(),
        cells: world.cells(),
        bound: world.bound(),
    };
    lines_of_steps(alloc, &setup, world.record())
}

// Those of a record of these steps.
fn lines_of_steps(alloc: Global, setup: &Setup, steps: &[Step]) -> Result<Vec<Line>, LineFault>
    requires { AllowsFirst (setting_of setup.now) setup.now.cells steps.now (length steps.now) }
    ensures lines { IfOk result (λ lines. lines.items ≡ lines_behind (record_of setup.now []) steps.now) }
    ensures named { IfOk result (λ lines. All IsByContent lines.items) }
    ensures err { IfErr result IsShort }
{
    // The invariant names it.
    let _ = setup;
    let mut stage = Stage::new(alloc, *setup)?.with_index();
    let mut lines = Vec::new(alloc);
    for (i, step) in steps.iter().enumerate() {
        // The invariant names it.
        let _ = i;
        let line = line_by(&mut stage, *step)?;
        push_line(&mut lines, line.member, line.act)?;
    }
    Ok(lines)
}

// Takes the step, which is allowed, and answers its line.
#[tactic(auto, unfolding(ct_play::specs::Acting::stepped))]
fn line_by(stage: &mut Stage, step: Step) -> Result<Line, LineFault>
    requires { cause stage.old.rehearsal step ≡ None }
    ensures line { IfOk result (λ line. line ≡ line_of stage.old.rehearsal step) }
    ensures named { IfOk result IsByContent }
    ensures step { OnOk result (stage.new.rehearsal ≡ extended stage.old.rehearsal step) }
    ensures err { IfErr result IsShort }
{
    let line = line_of(stage, step);
    stage.step(step)?;
    Ok(line)
}
