//! From a record to the end of its run.

ghost use Rattle.std.specs.Prelude.{◌≡◌, IfOk, IfErr, string_bytes};
ghost use Rattle.ct_world.specs.Setup.{record_of};
ghost use Rattle.ct_records.specs.View.{rehearsal_of};
ghost use Rattle.ct_play.specs.Goals.{uncut};
ghost use Rattle.ct_judging.specs.Hindering.{hindrance_text};
ghost use Rattle.ct_complete.specs.Completing.{IsCompleted, IsFaultOn};

use crate::complete_fault::CompleteFault;
use crate::obstacle::Obstacle;
use ct_judge::push_hindrance;
use ct_listing::replay;
use ct_model::Step;
use ct_play::{LineFault, Stage};
use ct_records::{ProgramFault, Script, record_line};
use ct_settled::{Hindrance, complete};
use ct_told::ShowFault;
use ct_world::Setup;
use std::alloc::Global;

// The record, with turns behind its steps until all is done, as a record and a line feed; else what stands in the way.
#[tactic(auto, using(crate::proofs::Ending::staged_is, crate::proofs::Ending::hindered_is, crate::proofs::Ending::handed_on))]
pub(crate) fn completed(alloc: Global, script: &Script) -> Result<Vec<u8>, CompleteFault>
    ensures ok { IfOk result (λ text. IsCompleted (rehearsal_of script.now) text.items) }
    ensures fault { IfErr result (IsFaultOn (rehearsal_of script.now)) }
{
    drop(replay(alloc, script)?);
    let mut stage = staged(alloc, script.setup(), &script.steps)?;
    match complete(alloc, &mut stage)? {
        None => match record_line(alloc, stage.world()) {
            Ok(line) => Ok(line),
            Err(_) => Err(CompleteFault::Show(ShowFault::Program(ProgramFault::Memory))),
        },
        Some(hindrance) => Err(CompleteFault::Hindered(told(alloc, &stage, hindrance)?)),
    }
}

// A stage with these steps.
fn staged(alloc: Global, setup: Setup, steps: &[Step]) -> Result<Stage, LineFault>
    ensures ok { IfOk result (λ stage. stage ≡ uncut (record_of setup steps.now)) }
    ensures err { IfErr result (λ fault. fault ≡ LineFault.OutOfMemory) }
{
    let mut stage = Stage::new(alloc, setup)?;
    for (i, step) in steps.iter().enumerate() {
        // The invariant names it.
        let _ = i;
        if stage.step(*step).is_err() {
            return Err(LineFault::OutOfMemory);
        }
    }
    Ok(stage)
}

// What stands in the way on the stage, and its text.
fn told(alloc: Global, stage: &Stage, hindrance: Hindrance) -> Result<Obstacle, LineFault>
    ensures { IfOk result (λ told. (told.hindrance ≡ hindrance)
        × (string_bytes told.text ≡ hindrance_text stage.now.rehearsal hindrance)) }
{
    let mut text = String::new(alloc);
    push_hindrance(&mut text, stage, hindrance)?;
    Ok(Obstacle { hindrance, text })
}
