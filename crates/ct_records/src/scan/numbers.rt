//! From the first bytes of a text to what stands there.

ghost use Rattle.std.specs.Prelude.{◌≡◌, ◌+◌, ◌*◌, ◌^◌, ◌<◌, ◌≤◌, ◌++◌, ◌∷◌, decimal, false, IfSome};
ghost use Rattle.ct_records.specs.Reading.{ReadsNumber};

use super::spacing::after_white;

// The last digit of the largest number.
const LAST_DIGIT: u8 = 5;

/// What follows the byte.
#[inline(always)]
pub(crate) fn behind(bytes: &[u8], byte: u8) -> Option<&[u8]>
    ensures { IfSome result (λ rest. bytes.now ≡ byte ∷ rest.now) }
{
    match bytes {
        [first, rest @ ..] if *first == byte => Some(rest),
        _ => None,
    }
}

/// The number behind white space or none, not above the limit, and what follows it, where something does: else the number
/// might go on.
#[inline(always)]
pub(crate) fn number(bytes: &[u8], high: u64) -> Option<(u64, &[u8])>
    ensures text { IfSome result (λ r. ReadsNumber bytes.now r.0 r.1.now) }
    ensures within { IfSome result (λ r. r.0 ≤ high) }
{
    let (n, rest) = digits(after_white(bytes), high)?;
    Some((n, rest))
}

/// The number that the first digits write, without a zero before it, and what follows them.
#[inline(always)]
pub(crate) fn digits(bytes: &[u8], high: u64) -> Option<(u64, &[u8])>
    ensures text { IfSome result (λ r. bytes.now ≡ decimal r.0 ++ r.1.now) }
    ensures within { IfSome result (λ r. r.0 ≤ high) }
{
    if bytes.is_empty() {
        return None;
    }
    let mut n = u64::from(digit(bytes[0]));
    if n > 9 {
        return None;
    }
    if n == 0 {
        return Some((0, &bytes[1..]));
    }
    for i in 1..bytes.len() {
        let next = digit(bytes[i]);
        if next > 9 {
            return (n <= high).then_some((n, &bytes[i..]));
        }
        // Below a small limit nothing overflows, and the compiler drops the next test.
        if n > high {
            return None;
        }
        if overflows(n, next) {
            return None;
        }
        n = n * 10 + u64::from(next);
    }
    None
}

// Whether the number with this digit behind it is too large.
#[inline(always)]
fn overflows(n: u64, digit: u8) -> bool
    requires { digit < 10 }
    ensures { result ≡ false → n * 10 + digit < 2 ^ 64 }
{
    n >= u64::MAX / 10 && is_past_last(n, digit)
}

// The same of a number that is larger than most.
#[inline(never)]
fn is_past_last(n: u64, digit: u8) -> bool
    requires { digit < 10 }
    ensures { result ≡ false → n * 10 + digit < 2 ^ 64 }
{
    n > u64::MAX / 10 || digit > LAST_DIGIT
}

// The number that the byte writes, where that is below 10: no other byte is a digit.
#[inline(always)]
fn digit(byte: u8) -> u8
    ensures { result < 10 → byte ≡ 48 + result }
{
    byte.wrapping_sub(b'0')
}

/// The letters up to the next quotation mark, and what follows the mark.
pub(crate) fn letters(bytes: &[u8]) -> Option<(&[u8], &[u8])>
    ensures { IfSome result (λ r. bytes.now ≡ r.0.now ++ 34 ∷ r.1.now) }
{
    let end = bytes.iter().position(|byte| *byte == b'"')?;
    Some((&bytes[..end], &bytes[end + 1..]))
}
