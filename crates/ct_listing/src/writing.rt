//! From a record to its schedule.

ghost use Rattle.std.specs.Prelude.{◌≡◌, [], length, None, Ok, IfOk, IfErr, OnOk, string_bytes};
ghost use Rattle.ct_world.specs.Replay.{AllowsFirst};
ghost use Rattle.ct_world.specs.Setup.{record_of, setting_of};
ghost use Rattle.ct_records.specs.Replay.{IsAllowed};
ghost use Rattle.ct_records.specs.View.{rehearsal_of};
ghost use Rattle.ct_play.specs.Faults.{IsShort};
ghost use Rattle.ct_grammar.specs.Sides.{whole};
ghost use Rattle.ct_judging.specs.Schedule.{schedule};
ghost use Rattle.ct_listing.specs.Goals.{IsExpecting, IsExpectingOf};
ghost use Rattle.ct_listing.specs.Leading.{Leads};
ghost use Rattle.ct_listing.specs.Listing.{IsRefusal, IsScheduleOf};

use crate::closing::push_facts;
use crate::expecting::push_expected;
use crate::heading::push_heading;
use crate::lines::push_step;
use ct_grammar::Goal;
use ct_model::Step;
use ct_play::{LineFault, Stage};
use ct_records::{ProgramFault, Script};
use ct_world::{Setup, World};
use std::alloc::Global;

/// The record as a schedule, or the fault of the first step that is refused.
pub fn schedule_of(alloc: Global, script: &Script) -> Result<Vec<u8>, ProgramFault>
    // Its steps are allowed, and of the text the judge of schedules makes the very same record.
    ensures ok { IfOk result (λ text. IsScheduleOf (rehearsal_of script.now) text.items) }
    ensures err { IfErr result (λ fault. IsRefusal fault (rehearsal_of script.now)) }
{
    drop(replay(alloc, script)?);
    match written(alloc, script.setup(), &script.steps) {
        Ok(text) => Ok(text.into_bytes()),
        Err(_) => Err(ProgramFault::Memory),
    }
}

/// The same, and behind it the line that expects the goal, where the judge takes that: where it is one line, the goal holds at the end of
/// the record, and the group has the members that it names.
pub fn schedule_expecting(
    alloc: Global,
    script: &Script,
    goal: &Goal,
) -> Result<Vec<u8>, ProgramFault>
    // Its steps are allowed, and of the whole text the judge makes the very same record.
    ensures ok { IfOk result (λ text. IsExpectingOf goal.now (rehearsal_of script.now) text.items) }
    ensures err { IfErr result (λ fault. IsRefusal fault (rehearsal_of script.now)) }
{
    drop(replay(alloc, script)?);
    match expecting(alloc, script.setup(), &script.steps, goal) {
        Ok(text) => Ok(text.into_bytes()),
        Err(_) => Err(ProgramFault::Memory),
    }
}

/// The world that the steps of the record lead to, which are all allowed, or the fault of the first that is refused.
pub fn replay(alloc: Global, script: &Script) -> Result<World, ProgramFault>
    ensures ok { IfOk result (λ world. world ≡ record { rehearsal = rehearsal_of script.now; prepared = None }) }
    ensures allowed { OnOk result (IsAllowed (rehearsal_of script.now)) }
    ensures err { IfErr result (λ fault. IsRefusal fault (rehearsal_of script.now)) }
{
    let (world, _board) = World::replay(
        alloc,
        script.group,
        script.cells,
        script.batch,
        &script.steps,
    )?;
    Ok(world)
}

// The schedule of these steps, which are all allowed.
#[tactic(auto, using(crate::proofs::Leading::leads_end))]
fn written(alloc: Global, setup: Setup, steps: &[Step]) -> Result<String, LineFault>
    requires { AllowsFirst (setting_of setup) setup.cells steps.now (length steps.now) }
    ensures ok { IfOk result (λ text. schedule (string_bytes text) ≡ Ok (record_of setup steps.now)) }
    ensures err { IfErr result IsShort }
{
    let mut text = String::new(alloc);
    let mut stage = Stage::new(alloc, setup)?.with_index();
    push_schedule(alloc, &mut text, &mut stage, steps)?;
    Ok(text)
}

// The same, and the line that expects the goal, where that is taken.
#[tactic(auto, using(crate::proofs::Leading::leads_end))]
fn expecting(alloc: Global, setup: Setup, steps: &[Step], goal: &Goal) -> Result<String, LineFault>
    requires { AllowsFirst (setting_of setup) setup.cells steps.now (length steps.now) }
    ensures whole { IfOk result (λ text. schedule (string_bytes text) ≡ Ok (record_of setup steps.now)) }
    ensures parts { IfOk result (λ text. IsExpecting goal.now (record_of setup steps.now) (string_bytes text)) }
    ensures err { IfErr result IsShort }
{
    let mut text = String::new(alloc);
    let mut stage = Stage::new(alloc, setup)?.with_index();
    push_schedule(alloc, &mut text, &mut stage, steps)?;
    push_expected(alloc, &mut text, &mut stage, goal)?;
    Ok(text)
}

// Writes the schedule of these steps, and takes them on a stage that has none yet.
fn push_schedule(
    alloc: Global,
    text: &mut String,
    stage: &mut Stage,
    steps: &[Step],
) -> Result<(), LineFault>
    requires empty { string_bytes text.old ≡ [] }
    requires none { stage.old.rehearsal.steps ≡ [] }
    requires uncut { stage.old.sides ≡ whole }
    requires allowed { AllowsFirst stage.old.rehearsal.setting stage.old.rehearsal.cells steps.now (length steps.now) }
    ensures leads { OnOk result (Leads (string_bytes text.new) stage.new) }
    ensures steps { OnOk result (stage.new.rehearsal ≡ record stage.old.rehearsal { steps = steps.now }) }
    ensures err { IfErr result IsShort }
{
    push_heading(alloc, text, stage)?;
    push_steps(alloc, text, stage, steps)?;
    push_facts(alloc, text, stage)?;
    Ok(())
}

// Writes the steps one by one, and takes them on a stage that has none yet.
fn push_steps(
    alloc: Global,
    text: &mut String,
    stage: &mut Stage,
    steps: &[Step],
) -> Result<(), LineFault>
    requires leads { Leads (string_bytes text.old) stage.old }
    requires none { stage.old.rehearsal.steps ≡ [] }
    requires allowed { AllowsFirst stage.old.rehearsal.setting stage.old.rehearsal.cells steps.now (length steps.now) }
    ensures leads { OnOk result (Leads (string_bytes text.new) stage.new) }
    ensures steps { OnOk result (stage.new.rehearsal ≡ record stage.old.rehearsal { steps = steps.now }) }
    ensures err { IfErr result IsShort }
{
    for (i, step) in steps.iter().enumerate() {
        // The invariant names it.
        let _ = i;
        push_step(alloc, text, stage, *step)?;
    }
    Ok(())
}
