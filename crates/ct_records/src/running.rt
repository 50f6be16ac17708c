//! A record that is run while it is read.

ghost use Rattle.std.specs.Prelude.{◌≡◌, ◌≤◌, ◌<◌, ◌^◌, [], Ok, None, length, vec_len, IfOk, IfSome};
ghost use Rattle.ct_streams.specs.Streams.{FailsOnce};
ghost use Rattle.ct_records.specs.Front.{IsBegun, IsReadAs, IsReadOf};
ghost use Rattle.ct_records.specs.Start.{IsStart, ReadAs, ReadOf};

use crate::head::{MOST, is_end};
use crate::input::Input;
use crate::so_far::text_so_far;
use crate::start::Start;
use crate::taking::take_steps;
use ct_streams::{InputFault, Source};
use ct_world::{Setup, Stage};
use std::alloc::Global;

/// The world of the record that the source has, where each step is allowed, nothing in it is escaped, and the numbers of
/// members and of cells and the bound stand before the steps, or a version that names none: the steps are done as they are
/// read. None: it isn't so, and the input's bytes say the same as what was read.
pub(crate) fn run<R: Source>(
    alloc: Global,
    reader: &mut R,
    piece: &mut [u8],
    input: &mut Input,
) -> Result<Option<Stage>, InputFault>
    requires count { R.failures reader.old < 2 ^ 63 }
    requires room { 1024 < length piece.old }
    requires empty { input.old.bytes.items ≡ [] }
    requires none { input.old.count ≡ 0 }
    ensures whole { IfOk result (λ o. IfSome o (λ stage. IsReadOf (R.left reader.old) (R.left reader.new) stage.rehearsal)) }
    ensures begun { IfOk result (λ o. IfSome o (λ stage. IsBegun stage.rehearsal)) }
    ensures part { result ≡ Ok None → IsReadAs (R.left reader.old) (R.left reader.new) input.new }
    ensures failures { FailsOnce result InputFault.Reader (R.failures reader.old) (R.failures reader.new) }
{
    input.read_up_to(reader, piece, MOST)?;
    let Ok(found) = Start::take(alloc, &mut input.bytes) else {
        return Err(InputFault::Memory);
    };
    let Some(start) = found else {
        return Ok(None);
    };
    let Some(stage) = begun(alloc, start.setup) else {
        return Err(InputFault::Memory);
    };
    run_staged(alloc, reader, piece, input, &start, stage)
}

// A world without steps.
fn begun(alloc: Global, setup: Setup) -> Option<Stage>
    ensures begun { IfSome result (λ stage. IsBegun stage.rehearsal) }
    ensures empty { IfSome result (λ stage. stage.rehearsal.steps ≡ []) }
{
    match Stage::new(alloc, setup) {
        Ok(stage) => Some(stage),
        Err(_) => None,
    }
}

// The world in which the steps are done as they are read.
fn run_staged<R: Source>(
    alloc: Global,
    reader: &mut R,
    piece: &mut [u8],
    input: &mut Input,
    start: &Start,
    mut stage: Stage,
) -> Result<Option<Stage>, InputFault>
    requires count { R.failures reader.old < 2 ^ 63 }
    requires room { 1024 < length piece.old }
    requires few { input.old.count ≤ 67108864 }
    requires short { vec_len input.old.bytes ≤ 1024 }
    requires start { IsStart start.now }
    requires begun { IsBegun stage.rehearsal }
    requires empty { stage.rehearsal.steps ≡ [] }
    ensures whole { IfOk result (λ o. IfSome o (λ stage.
        ReadOf start.now input.old (R.left reader.old) (R.left reader.new) stage.rehearsal)) }
    ensures begun { IfOk result (λ o. IfSome o (λ stage. IsBegun stage.rehearsal)) }
    ensures part { result ≡ Ok None → ReadAs start.now input.old (R.left reader.old) (R.left reader.new) input.new }
    ensures failures { FailsOnce result InputFault.Reader (R.failures reader.old) (R.failures reader.new) }
{
    if take_steps(reader, piece, input, &mut stage)?
        && is_end(&input.bytes, start.numbers, stage.world())
    {
        return Ok(Some(stage));
    }
    let record = stage.world().record();
    let Ok(text) = text_so_far(alloc, &start.text, record, &input.bytes) else {
        return Err(InputFault::Memory);
    };
    input.bytes = text;
    Ok(None)
}
