//! From a world to the text of its record.

ghost use Rattle.std.specs.Prelude.{◌≡◌, ◌++◌, ◌∷◌, [], Ok, OnOk, IfOk};
ghost use Rattle.ct_text.specs.Adds.{Adds};
ghost use Rattle.ct_model.specs.StepText.{step_text};
ghost use Rattle.ct_records.specs.Fits.{StepFits, AllFit, IsStorable};
ghost use Rattle.ct_records.specs.Script.{script};
ghost use Rattle.ct_records.specs.Text.{steps_text, record_text};

use ct_model::Step;
use ct_text::push_separator;
use ct_world::World;
use std::alloc::{AllocError, Global};

/// The text of the world's record: compact, its keys in rising order, with no line end. The only error is that memory is
/// refused.
pub fn write_record(alloc: Global, world: &World) -> Result<Vec<u8>, AllocError>
    ensures text { IfOk result (λ bytes. bytes.items ≡ record_text world.now.rehearsal) }
    ensures reads_back { IfOk result (λ bytes. script bytes.items ≡ Ok world.now.rehearsal) }
{
    record_bytes(alloc, world)
}

/// The same and a line feed.
pub fn record_line(alloc: Global, world: &World) -> Result<Vec<u8>, AllocError>
    ensures { IfOk result (λ line. line.items ≡ record_text world.now.rehearsal ++ 10 ∷ []) }
{
    let mut line = write_record(alloc, world)?;
    match line.push(b'\n') {
        Ok(()) => Ok(line),
        Err(_) => Err(AllocError),
    }
}

// The record, and that it is one that a text can hold.
#[tactic(auto, unfolding(crate::specs::Text::record_text))]
fn record_bytes(alloc: Global, world: &World) -> Result<Vec<u8>, AllocError>
    ensures text { IfOk result (λ bytes. bytes.items ≡ record_text world.now.rehearsal) }
    ensures storable { OnOk result (IsStorable world.now.rehearsal) }
{
    let mut text = String::new(alloc);
    let cells = world.cells();
    let n = world.group().n();
    let bound = world.bound();
    write!(
        text,
        "{{\"batch\":{bound},\"cells\":{cells},\"n\":{n},\"steps\":["
    )?;
    push_steps(&mut text, world.record())?;
    text.push_str("],\"version\":3}")?;
    Ok(text.into_bytes())
}

pub(crate) fn push_steps(text: &mut String, steps: &[Step]) -> Result<(), AllocError>
    ensures text { OnOk result (Adds text.old text.new (steps_text steps.now)) }
    ensures fit { OnOk result (AllFit steps.now) }
{
    for (i, step) in steps.iter().enumerate() {
        push_separator(text, ',', i > 0)?;
        push_step(text, *step)?;
    }
    Ok(())
}

fn push_step(text: &mut String, step: Step) -> Result<(), AllocError>
    ensures text { OnOk result (Adds text.old text.new (step_text step)) }
    ensures fits { StepFits step }
{
    write!(text, "{step}")
}
