//! From the first bytes of a list of steps to its next step.

ghost use Rattle.std.specs.Prelude.{false, IfSome};
ghost use Rattle.ct_records.specs.Reading.{ReadsStep};

use super::naming::BYTE;
use super::numbers::{behind, number};
use super::quick::quick_step;
use super::spaced::{behind_another, command, spaced_step};
use super::spacing::{after_white, mark};
use super::words::behind_eight;
use ct_model::Step;

/// The next step, behind a comma where others stand before it, and what follows it. None: no step stands there that is
/// written without escapes, or not all of it.
#[inline(always)]
pub(crate) fn next_step(bytes: &[u8], later: bool) -> Option<(Step, &[u8])>
    ensures { IfSome result (λ r. ReadsStep later bytes.now r.0 r.1.now) }
{
    if later {
        if let Some(found) = quick_step(bytes) {
            return Some(found);
        }
    }
    other_step(bytes, later)
}

// Any other step, or one that is written in another way.
#[inline(never)]
fn other_step(bytes: &[u8], later: bool) -> Option<(Step, &[u8])>
    ensures { IfSome result (λ r. ReadsStep later bytes.now r.0 r.1.now) }
{
    let start = behind_another(bytes, later)?;
    match submission(start) {
        Some(found) => Some(found),
        None => spaced_step(start),
    }
}

// A Submit with no white space before its commas.
#[inline(always)]
fn submission(bytes: &[u8]) -> Option<(Step, &[u8])>
    ensures { IfSome result (λ r. ReadsStep false bytes.now r.0 r.1.now) }
{
    let name = after_white(mark(bytes, b'[')?);
    let rest = behind(behind_eight(name, *b"\"submit\"")?, b',')?;
    let (p, rest) = number(rest, BYTE)?;
    let (command, rest) = command(behind(rest, b',')?)?;
    Some((Step::Submit(p as u8, command), mark(rest, b']')?))
}
