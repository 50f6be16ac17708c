//! From the first bytes of a list of steps to its next step, where white space may stand anywhere.

ghost use Rattle.std.specs.Prelude.{false, length, if◌then◌else◌, IfSome};
ghost use Rattle.ct_model.specs.StepText.{command_text};
ghost use Rattle.ct_records.specs.Lexemes.{command_lexemes, comma_if};
ghost use Rattle.ct_records.specs.Reading.{Reads, ReadsEntry, ReadsName, ReadsStep, ReadsTail};

use super::naming::{BYTE, commanded_step, named_command, numbered_step, short_step};
use super::numbers::{letters, number};
use super::spacing::mark;
use ct_model::Step;
use ct_names::{Command, Member};

/// The step, with white space at any place, and what follows it. None: no step stands there that is written without escapes,
/// or not all of it.
#[inline(always)]
pub(crate) fn spaced_step(bytes: &[u8]) -> Option<(Step, &[u8])>
    ensures { IfSome result (λ r. ReadsStep false bytes.now r.0 r.1.now) }
{
    let (name, p, rest) = entry(bytes)?;
    step_of(name, p, rest)
}

/// What follows the comma, where another step stands before this one.
#[inline(always)]
pub(crate) fn behind_another(bytes: &[u8], later: bool) -> Option<&[u8]>
    ensures { IfSome result (λ rest. Reads bytes.now (comma_if later) (if later then 1 else 0) rest.now) }
{
    if later {
        mark(bytes, b',')
    } else {
        Some(bytes)
    }
}

// The bracket that opens a step or a command, its name, a comma and the first number, and what follows them.
#[inline(always)]
fn entry(bytes: &[u8]) -> Option<(&[u8], u8, &[u8])>
    ensures { IfSome result (λ r. ReadsEntry bytes.now r.0.now r.1 r.2.now) }
{
    let (name, rest) = name(mark(bytes, b'[')?)?;
    let (first, rest) = number(mark(rest, b',')?, BYTE)?;
    Some((name, first as u8, rest))
}

/// The letters between two quotation marks, and what follows the second.
#[inline(always)]
pub(crate) fn name(bytes: &[u8]) -> Option<(&[u8], &[u8])>
    ensures { IfSome result (λ r. ReadsName bytes.now r.0.now r.1.now) }
{
    letters(mark(bytes, b'"')?)
}

// The step of a name, a member and what follows these.
#[inline(always)]
fn step_of<'a>(name: &[u8], p: Member, bytes: &'a [u8]) -> Option<(Step, &'a [u8])>
    ensures { IfSome result (λ r. ReadsTail name.now p bytes.now r.0 r.1.now) }
{
    if let Some(rest) = mark(bytes, b']') {
        return Some((short_step(name, p)?, rest));
    }
    let rest = mark(bytes, b',')?;
    if let Some((command, rest)) = command(rest) {
        return Some((commanded_step(name, p, command)?, mark(rest, b']')?));
    }
    let (n, rest) = number(rest, u64::MAX)?;
    Some((numbered_step(name, p, n)?, mark(rest, b']')?))
}

/// The command that is an array.
#[inline(always)]
pub(crate) fn command(bytes: &[u8]) -> Option<(Command, &[u8])>
    ensures { IfSome result (λ r. Reads bytes.now (command_lexemes r.0) (length (command_text r.0)) r.1.now) }
{
    let (name, register, rest) = entry(bytes)?;
    let (n, rest) = number(mark(rest, b',')?, u64::MAX)?;
    let command = named_command(name, register, n)?;
    Some((command, mark(rest, b']')?))
}
