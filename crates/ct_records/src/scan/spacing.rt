//! White space, and the marks behind it.

ghost use Rattle.std.specs.Prelude.{◌≡◌, IfSome, IsTrue};
ghost use Rattle.json.specs.Word.{is_space};
ghost use Rattle.ct_records.specs.Reading.{IsBehindWhite, IsWhite, ReadsMark};

use super::numbers::behind;

/// What follows the byte, which white space may stand before.
#[inline(always)]
pub(crate) fn mark(bytes: &[u8], byte: u8) -> Option<&[u8]>
    ensures { IfSome result (λ rest. ReadsMark bytes.now byte rest.now) }
{
    let rest = behind(after_white(bytes), byte)?;
    Some(rest)
}

/// What follows the white space at the front. One space or line end is passed without a call.
#[inline(always)]
pub(crate) fn after_white(bytes: &[u8]) -> &[u8]
    ensures { IsBehindWhite bytes.now result.now }
{
    match bytes {
        [first, ..] if *first > b' ' => bytes,
        [b' ' | b'\n', second, ..] if *second > b' ' => &bytes[1..],
        _ => skip_white(bytes),
    }
}

// The same, where more stands there.
#[inline(never)]
fn skip_white(bytes: &[u8]) -> &[u8]
    ensures { IsBehindWhite bytes.now result.now }
{
    for i in 0..bytes.len() {
        if !is_space(bytes[i]) {
            return &bytes[i..];
        }
    }
    &[]
}

/// Whether the bytes are white space.
pub(crate) fn is_white(bytes: &[u8]) -> bool
    ensures { IsTrue result → IsWhite bytes.now }
{
    bytes.iter().all(|byte| is_space(*byte))
}

#[inline(always)]
fn is_space(byte: u8) -> bool
    ensures { result ≡ is_space byte }
{
    byte == b' ' || byte == b'\t' || byte == b'\n' || byte == b'\r'
}
