//! From the first bytes of a list of steps to its next step, where it is written as most are.

ghost use Rattle.std.specs.Prelude.{true, IfSome};
ghost use Rattle.ct_records.specs.Quick.{ReadsNamed};
ghost use Rattle.ct_records.specs.Reading.{ReadsStep};

use super::kind::Kind;
use super::numbers::behind;
use super::pairs::quick_pair;
use super::spacing::after_white;
use super::words::{behind_eight, behind_four, behind_two};
use ct_model::Step;

/// A Receive or a Postpone behind another step, and what follows it, where no white space stands before a comma.
#[inline(always)]
pub(crate) fn quick_step(bytes: &[u8]) -> Option<(Step, &[u8])>
    ensures { IfSome result (λ r. ReadsStep true bytes.now r.0 r.1.now) }
{
    let (kind, rest) = name(bytes)?;
    let (p, serial, rest) = quick_pair(rest)?;
    Some((kind.step(p, serial), rest))
}

// The name, and what follows it and its comma.
#[inline(always)]
fn name(bytes: &[u8]) -> Option<(Kind, &[u8])>
    ensures { IfSome result (λ r. ReadsNamed bytes.now r.0 r.1.now) }
{
    match close_name(bytes) {
        Some(found) => Some(found),
        None => spaced_name(bytes),
    }
}

// The name without white space before it.
#[inline(always)]
fn close_name(bytes: &[u8]) -> Option<(Kind, &[u8])>
    ensures { IfSome result (λ r. ReadsNamed bytes.now r.0 r.1.now) }
{
    if let Some(rest) = behind_eight(bytes, *b",[\"recei") {
        return Some((Kind::Receive, behind_four(rest, *b"ve\",")?));
    }
    let rest = behind_eight(bytes, *b",[\"postp")?;
    let rest = behind_four(rest, *b"one\"")?;
    Some((Kind::Postpone, behind(rest, b',')?))
}

// The name with white space before it.
#[inline(never)]
fn spaced_name(bytes: &[u8]) -> Option<(Kind, &[u8])>
    ensures { IfSome result (λ r. ReadsNamed bytes.now r.0 r.1.now) }
{
    let start = after_white(behind(bytes, b',')?);
    let name = after_white(behind(start, b'[')?);
    if let Some(rest) = behind_eight(name, *b"\"receive") {
        return Some((Kind::Receive, behind_two(rest, *b"\",")?));
    }
    let rest = behind_eight(name, *b"\"postpon")?;
    let rest = behind_two(rest, *b"e\"")?;
    Some((Kind::Postpone, behind(rest, b',')?))
}
