//! The steps at the front of what a source has, taken one by one.

ghost use Rattle.std.specs.Prelude.{◌≡◌, ◌≤◌, ◌<◌, ◌^◌, true, false, Ok, None, length, drop, vec_len, IfOk, OnOk, IfSome};
ghost use Rattle.std.specs.Io.KnownBytes.{IsAtEnd};
ghost use Rattle.ct_records.specs.Fits.{StepFits};
ghost use Rattle.ct_streams.specs.Streams.{FailsOnce};
ghost use Rattle.ct_records.specs.Front.{AreDone, AreTaken, IsAfter};

use crate::head::MOST;
use crate::input::Input;
use crate::keeper::Keeper;
use crate::reading::MAX_LEN;
use crate::scan::next_step;
use ct_model::Step;
use ct_streams::{InputFault, Source};
use std::alloc::AllocError;

/// Takes the steps of the input and of what the source has, up to the first that isn't written so or isn't taken; whether the
/// source has nothing more, and had no more than a record may have.
pub(crate) fn take_steps<R: Source, K: Keeper>(
    reader: &mut R,
    piece: &mut [u8],
    input: &mut Input,
    keeper: &mut K,
) -> Result<bool, InputFault>
    requires count { R.failures reader.old < 2 ^ 63 }
    requires room { 1024 < length piece.old }
    requires few { input.old.count ≤ 67108864 }
    requires short { vec_len input.old.bytes ≤ 1024 }
    ensures done { OnOk result (AreDone (K.has keeper.old) (K.has keeper.new) (R.left reader.old) (R.left reader.new)
        input.old input.new) }
    ensures end { IfOk result (λ all. all ≡ true → IsAtEnd (R.left reader.new)) }
    ensures few { IfOk result (λ all. all ≡ true → input.new.count ≤ 67108864) }
    ensures failures { FailsOnce result InputFault.Reader (R.failures reader.old) (R.failures reader.new) }
{
    for _ in 0..MAX_LEN {
        let more = take_more(reader, piece, input, keeper)?;
        if !more {
            return Ok(input.count <= MAX_LEN);
        }
        if input.bytes.len() > MOST || input.count > MAX_LEN {
            return Ok(false);
        }
    }
    Ok(false)
}

// Reads once, and takes the steps of the input and of what was read; whether that was any byte.
fn take_more<R: Source, K: Keeper>(
    reader: &mut R,
    piece: &mut [u8],
    input: &mut Input,
    keeper: &mut K,
) -> Result<bool, InputFault>
    requires count { R.failures reader.old < 2 ^ 63 }
    requires room { vec_len input.old.bytes < length piece.old }
    requires few { input.old.count ≤ 67108864 }
    ensures done { OnOk result (AreDone (K.has keeper.old) (K.has keeper.new) (R.left reader.old) (R.left reader.new)
        input.old input.new) }
    ensures end { IfOk result (λ more. more ≡ false → IsAtEnd (R.left reader.new)) }
    ensures failures { FailsOnce result InputFault.Reader (R.failures reader.old) (R.failures reader.new) }
{
    let end = input.read_behind(reader, piece)?;
    let more = end > input.bytes.len();
    let all = &piece[..end];
    let Ok(used) = take_all(keeper, all) else {
        return Err(InputFault::Memory);
    };
    input.keep(&all[used..])?;
    Ok(more)
}

/// Takes the steps at the front of the bytes, up to the first that isn't written so or isn't taken, and answers how many bytes
/// they are.
#[inline(always)]
pub(crate) fn take_all<K: Keeper>(keeper: &mut K, bytes: &[u8]) -> Result<usize, AllocError>
    ensures within { IfOk result (λ used. used ≤ length bytes.now) }
    ensures taken { IfOk result (λ used. AreTaken (K.has keeper.old) (K.has keeper.new) bytes.now (drop used bytes.now)) }
{
    let mut later = !keeper.is_empty();
    let mut rest = bytes;
    for _ in 0..bytes.len() {
        let Some(end) = take_one(keeper, rest, later)? else {
            return Ok(bytes.len() - rest.len());
        };
        rest = end;
        later = true;
    }
    Ok(bytes.len() - rest.len())
}

// Takes the next step, and answers what follows it. None: nothing was taken.
#[inline(always)]
fn take_one<'a, K: Keeper>(
    keeper: &mut K,
    bytes: &'a [u8],
    later: bool,
) -> Result<Option<&'a [u8]>, AllocError>
    ensures taken { IfOk result (λ o. IfSome o (λ rest.
        AreTaken (IsAfter (K.has keeper.old) later) (IsAfter (K.has keeper.new) true) bytes.now rest.now)) }
    ensures shorter { IfOk result (λ o. IfSome o (λ rest. length rest.now ≤ length bytes.now)) }
    ensures none { result ≡ Ok None → keeper.new ≡ keeper.old }
{
    let Some((step, rest)) = next_step(bytes, later) else {
        return Ok(None);
    };
    fits(step);
    if keeper.take(step)? {
        Ok(Some(rest))
    } else {
        Ok(None)
    }
}

// What each step's numbers are within.
#[inline(always)]
fn fits(step: Step)
    ensures { StepFits step }
{
    let _ = step;
}
