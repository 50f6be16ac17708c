//! What a view shows of a record.

ghost use Rattle.std.specs.Prelude.{◌≡◌, ◌≢◌, ◌<◌, ◌++◌, [], length, slice_get, Some, IfOk, IfErr, OnOk, string_bytes};
ghost use Rattle.ct_world.specs.Stage.{so_far};
ghost use Rattle.ct_records.specs.declared.program_fault.ProgramFault.TheVariants.{Memory};
ghost use Rattle.ct_text.specs.Adds.{Adds};
ghost use Rattle.ct_records.specs.View.{rehearsal_of};
ghost use Rattle.ct_views.specs.Answer.{IsAnswer, refused_in, refused_line, state_in};

use crate::form::Form;
use crate::selected::push_selected;
use crate::selection::Selection;
use crate::view::View;
use ct_json::{push_refused_json, report_json, state_json};
use ct_model::Step;
use ct_names::Refusal;
use ct_records::{ProgramFault, Script};
use ct_show::{Traced, push_refused, state_text, trace};
use ct_world::{Replay, ReplayFault, World};
use std::alloc::{AllocError, Global};

/// What a view shows of a record.
#[derive(Drop)]
pub struct Answer {
    /// The text.
    pub text: Vec<u8>,
    /// The first refused step, if there is one.
    pub refused: Option<ReplayFault>,
}

/// What the view shows of the record. The lines of steps take time linear in the record and in what they show. The only
/// fault is that memory is refused.
pub fn shown(alloc: Global, script: &Script, view: &View) -> Result<Answer, ProgramFault>
    ensures ok { IfOk result (λ answer. IsAnswer view.now (rehearsal_of script.now) answer.text.items answer.refused) }
    ensures err { IfErr result (λ fault. fault ≡ Memory) }
{
    match view {
        View::Report => report_of(alloc, script),
        View::Steps(selection, form) => { lines_of(alloc, script, selection, *form) }
        View::State(count, form) => state_of(alloc, script, *count, *form),
    }
}

// No text, where a step is refused.
fn without_text(alloc: Global, fault: ReplayFault) -> Result<Answer, ProgramFault>
    ensures text { IfOk result (λ answer. answer.text.items ≡ []) }
    ensures fault { IfOk result (λ answer. answer.refused ≡ Some fault) }
    ensures not_memory { OnOk result (fault.refusal ≢ Refusal.OutOfMemory) }
    ensures err { IfErr result (λ fault. fault ≡ Memory) }
{
    match fault.refusal {
        Refusal::OutOfMemory => Err(ProgramFault::Memory),
        _ => Ok(Answer {
            text: Vec::new(alloc),
            refused: Some(fault),
        }),
    }
}

// The report, and no text where a step is refused.
fn report_of(alloc: Global, script: &Script) -> Result<Answer, ProgramFault>
    ensures ok { IfOk result (λ answer. IsAnswer View.Report (rehearsal_of script.now) answer.text.items answer.refused) }
    ensures err { IfErr result (λ fault. fault ≡ Memory) }
{
    match World::replay(
        alloc,
        script.group,
        script.cells,
        script.batch,
        &script.steps,
    ) {
        Ok((world, _board)) => Ok(Answer {
            text: report_json(alloc, &world)?,
            refused: None,
        }),
        Err(fault) => without_text(alloc, fault),
    }
}

// The state after so many steps, or after all of them, and no text where one of them is refused.
fn state_of(alloc: Global, script: &Script, count: u32, form: Form) -> Result<Answer, ProgramFault>
    ensures ok { IfOk result (λ answer. IsAnswer (View.State count form) (rehearsal_of script.now) answer.text.items answer.refused) }
    ensures err { IfErr result (λ fault. fault ≡ Memory) }
{
    let count = (count as usize).min(script.steps.len());
    match trace(alloc, script.setup(), &script.steps[..count]) {
        Ok(traced) => Ok(Answer {
            text: state_in(alloc, form, &traced)?,
            refused: None,
        }),
        Err(fault) => without_text(alloc, fault),
    }
}

// The state of the world in the form.
fn state_in(alloc: Global, form: Form, traced: &Traced) -> Result<Vec<u8>, AllocError>
    ensures { IfOk result (λ bytes. bytes.items ≡ state_in form traced.now.world.rehearsal traced.now.senders.items) }
{
    match form {
        Form::Text => state_text(alloc, traced),
        Form::Json => state_json(alloc, traced),
    }
}

// The lines of the steps, up to the first refused one.
fn lines_of(
    alloc: Global,
    script: &Script,
    selection: &Selection,
    form: Form,
) -> Result<Answer, ProgramFault>
    ensures ok { IfOk result (λ answer.
        IsAnswer (View.Steps selection.now form) (rehearsal_of script.now) answer.text.items answer.refused) }
    ensures err { IfErr result (λ fault. fault ≡ Memory) }
{
    let Ok(mut replay) = Replay::new(alloc, script.setup(), &script.steps) else {
        return Err(ProgramFault::Memory);
    };
    let mut text = String::new(alloc);
    while !replay.is_over() {
        let done = match replay.step() {
            Ok(done) => done,
            Err(fault) => return refused(text, form, &replay, fault),
        };
        push_selected(
            &mut text,
            selection,
            form,
            replay.world(),
            done.before,
            done.number,
            done.step,
        )?;
    }
    Ok(Answer {
        text: text.into_bytes(),
        refused: None,
    })
}

// The text and the line of the replay's next step, which is refused.
fn refused(
    text: String,
    form: Form,
    replay: &Replay<'_>,
    fault: ReplayFault,
) -> Result<Answer, ProgramFault>
    requires { replay.now.done < length replay.now.whole.steps }
    ensures text { IfOk result (λ answer. answer.text.items ≡ string_bytes text
        ++ refused_line form (so_far replay.now) fault.at (slice_get replay.now.whole.steps replay.now.done) fault.refusal) }
    ensures fault { IfOk result (λ answer. answer.refused ≡ Some fault) }
    ensures not_memory { OnOk result (fault.refusal ≢ Refusal.OutOfMemory) }
    ensures err { IfErr result (λ fault. fault ≡ Memory) }
{
    if fault.refusal == Refusal::OutOfMemory {
        return Err(ProgramFault::Memory);
    }
    let mut text = text;
    push_refused_in(
        &mut text,
        form,
        replay.world(),
        fault.at,
        replay.left()[0],
        fault.refusal,
    )?;
    Ok(Answer {
        text: text.into_bytes(),
        refused: Some(fault),
    })
}

// The line of the step of this number, which is refused, in the form.
fn push_refused_in(
    text: &mut String,
    form: Form,
    world: &World,
    number: usize,
    step: Step,
    refusal: Refusal,
) -> Result<(), AllocError>
    ensures { OnOk result (Adds text.old text.new (refused_in form world.now.rehearsal number step refusal)) }
{
    match form {
        Form::Text => push_refused(text, world, number, step, refusal),
        Form::Json => push_refused_json(text, world, number, step, refusal),
    }
}
