//! From a run to its text.

ghost use Rattle.std.specs.Prelude.{◌≡◌, IfOk, IfErr};
ghost use Rattle.ct_records.specs.View.{rehearsal_of};
ghost use Rattle.ct_shrink.specs.Texts.{IsTextOf};

use crate::options::Form;
use ct_grammar::Goal;
use ct_listing::schedule_expecting;
use ct_records::{ProgramFault, Script, record_line};
use ct_world::World;
use std::alloc::{AllocError, Global};

// The run as a text of this form; behind a schedule stands that the goal is expected.
pub(crate) fn written(
    alloc: Global,
    world: World,
    form: Form,
    goal: &Goal,
) -> Result<Vec<u8>, ProgramFault>
    ensures text { IfOk result (λ text. IsTextOf form world.rehearsal goal.now text.items) }
    ensures err { IfErr result (λ fault. fault ≡ ProgramFault.Memory) }
{
    match form {
        Form::Record => {
            let text = record_line(alloc, &world);
            drop(world);
            Ok(text?)
        }
        Form::Schedule => scheduled(alloc, world, goal),
    }
}

// The schedule, and the line that expects the goal.
fn scheduled(alloc: Global, world: World, goal: &Goal) -> Result<Vec<u8>, ProgramFault>
    ensures text { IfOk result (λ text. IsTextOf Form.Schedule world.rehearsal goal.now text.items) }
    ensures err { IfErr result (λ fault. fault ≡ ProgramFault.Memory) }
{
    let script = script_of(alloc, &world);
    drop(world);
    match schedule_expecting(alloc, &script?, goal) {
        Ok(text) => Ok(text),
        Err(_) => Err(ProgramFault::Memory),
    }
}

/// The record of the world.
pub fn script_of(alloc: Global, world: &World) -> Result<Script, AllocError>
    ensures { IfOk result (λ script. rehearsal_of script ≡ world.now.rehearsal) }
{
    let mut steps = Vec::new(alloc);
    steps.extend_from_slice(world.record())?;
    Ok(Script {
        group: world.group(),
        cells: world.cells(),
        batch: world.bound(),
        steps,
    })
}
