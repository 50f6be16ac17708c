//! Bytes compared eight or four at a time.

ghost use Rattle.std.specs.Prelude.{◌≡◌, ◌++◌, IfSome};

/// What follows these eight bytes.
#[inline(always)]
pub(crate) fn behind_eight(bytes: &[u8], text: [u8; 8]) -> Option<&[u8]>
    ensures { IfSome result (λ rest. bytes.now ≡ text ++ rest.now) }
{
    match bytes {
        [a, b, c, d, e, f, g, h, rest @ ..] => {
            let first = u64::from_le_bytes([*a, *b, *c, *d, *e, *f, *g, *h]);
            if first == u64::from_le_bytes(text) {
                Some(rest)
            } else {
                None
            }
        }
        _ => None,
    }
}

/// What follows these four bytes.
#[inline(always)]
pub(crate) fn behind_four(bytes: &[u8], text: [u8; 4]) -> Option<&[u8]>
    ensures { IfSome result (λ rest. bytes.now ≡ text ++ rest.now) }
{
    match bytes {
        [a, b, c, d, rest @ ..] => {
            let first = u32::from_le_bytes([*a, *b, *c, *d]);
            if first == u32::from_le_bytes(text) {
                Some(rest)
            } else {
                None
            }
        }
        _ => None,
    }
}

/// What follows these two bytes.
#[inline(always)]
pub(crate) fn behind_two(bytes: &[u8], text: [u8; 2]) -> Option<&[u8]>
    ensures { IfSome result (λ rest. bytes.now ≡ text ++ rest.now) }
{
    match bytes {
        [a, b, rest @ ..] => {
            let first = u16::from_le_bytes([*a, *b]);
            if first == u16::from_le_bytes(text) {
                Some(rest)
            } else {
                None
            }
        }
        _ => None,
    }
}
