//! From a run to its text.

ghost use Rattle.std.specs.Prelude.{◌≡◌, IfOk};
ghost use Rattle.ct_records.specs.View.{rehearsal_of};
ghost use Rattle.ct_listing.specs.Listing.{IsScheduleOf};
ghost use Rattle.ct_logs.specs.Writing.{IsTextOf};

use crate::form::Form;
use ct_listing::schedule_of;
use ct_records::{Script, record_line};
use ct_world::World;
use std::alloc::{AllocError, Global};

// The run as a text of this form.
pub(crate) fn written(alloc: Global, world: World, form: Form) -> Result<Vec<u8>, AllocError>
    ensures { IfOk result (λ text. IsTextOf form world.rehearsal text.items) }
{
    match form {
        Form::Record => {
            let text = record_line(alloc, &world);
            drop(world);
            text
        }
        Form::Schedule => {
            let script = script_of(alloc, &world);
            drop(world);
            scheduled(alloc, script?)
        }
    }
}

// The schedule of the record.
fn scheduled(alloc: Global, script: Script) -> Result<Vec<u8>, AllocError>
    ensures { IfOk result (λ text. IsScheduleOf (rehearsal_of script) text.items) }
{
    let text = schedule_of(alloc, &script);
    drop(script);
    match text {
        Ok(text) => Ok(text),
        Err(_) => Err(AllocError),
    }
}

// The record.
fn script_of(alloc: Global, world: &World) -> Result<Script, AllocError>
    ensures { IfOk result (λ script. rehearsal_of script ≡ world.now.rehearsal) }
{
    let mut steps = Vec::new(alloc);
    steps.extend_from_slice(world.record())?;
    Ok(Script {
        group: world.group(),
        cells: world.cells(),
        batch: world.bound(),
        steps,
    })
}
