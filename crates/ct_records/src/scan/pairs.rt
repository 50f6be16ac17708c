//! Two numbers and the bracket behind them.

ghost use Rattle.std.specs.Prelude.{◌+◌, decimal, length, IfSome};
ghost use Rattle.ct_records.specs.Lexemes.{pair_lexemes};
ghost use Rattle.ct_records.specs.Reading.{Reads, ReadsMark};

use super::naming::{BYTE, SERIAL};
use super::numbers::{behind, number};
use super::spacing::mark;

/// The number of a member, a comma and a serial, and what follows the bracket behind these.
#[inline(always)]
pub(crate) fn quick_pair(bytes: &[u8]) -> Option<(u8, u32, &[u8])>
    ensures { IfSome result (λ r. Reads bytes.now (pair_lexemes r.0 r.1)
        (length (decimal r.0) + 1 + (length (decimal r.1) + 1)) r.2.now) }
{
    let (p, rest) = number(bytes, BYTE)?;
    let (serial, rest) = number(close_mark(rest, b',')?, SERIAL)?;
    let rest = close_mark(rest, b']')?;
    Some((p as u8, serial as u32, rest))
}

// What follows the byte, which most often stands in front.
#[inline(always)]
fn close_mark(bytes: &[u8], byte: u8) -> Option<&[u8]>
    ensures { IfSome result (λ rest. ReadsMark bytes.now byte rest.now) }
{
    match behind(bytes, byte) {
        Some(rest) => Some(rest),
        None => mark(bytes, byte),
    }
}
