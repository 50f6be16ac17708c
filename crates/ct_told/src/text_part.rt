//! Parts of texts in JSON.

// What stands last in a text that was begun.
#[derive(Clone, Copy)]
pub(crate) enum TextPart {
    Signs,
    // The backslash of an escape.
    Escape,
    // Hexadecimal digits of a sign, behind a 1.
    Code(u32),
    // The first of the two numbers of a sign; and the backslash behind it.
    First,
    Second,
    // Hexadecimal digits of the second number, behind a 1.
    Low(u32),
    // The quote that ends the text.
    End,
}

// What has so many digits, behind a 1, is less than this.
const OF_ONE: u32 = 0x20;

const OF_TWO: u32 = 0x200;

const OF_THREE: u32 = 0x2000;

impl TextPart {
    /// That of the next byte, if a text may go on with it.
    pub(crate) fn next(self, byte: u8) -> Option<TextPart> {
        match self {
            TextPart::Signs => sign(byte),
            TextPart::Escape => escaped(byte),
            TextPart::Code(code) => coded((code << 4) | digit(byte)?),
            TextPart::First => (byte == b'\\').then_some(TextPart::Second),
            TextPart::Second => (byte == b'u').then_some(TextPart::Low(1)),
            TextPart::Low(code) => low((code << 4) | digit(byte)?),
            TextPart::End => None,
        }
    }
}

fn sign(byte: u8) -> Option<TextPart> {
    match byte {
        b'"' => Some(TextPart::End),
        b'\\' => Some(TextPart::Escape),
        0..=31 => None,
        _ => Some(TextPart::Signs),
    }
}

fn escaped(byte: u8) -> Option<TextPart> {
    match byte {
        b'"' | b'\\' | b'/' | b'b' | b'f' | b'n' | b'r' | b't' => Some(TextPart::Signs),
        b'u' => Some(TextPart::Code(1)),
        _ => None,
    }
}

// A second number stands behind no other text.
fn coded(code: u32) -> Option<TextPart> {
    if is_second(code) {
        None
    } else if code < OF_THREE {
        Some(TextPart::Code(code))
    } else if 0x1d800 <= code && code <= 0x1dbff {
        Some(TextPart::First)
    } else {
        Some(TextPart::Signs)
    }
}

fn low(code: u32) -> Option<TextPart> {
    if code < OF_ONE {
        (code == 0x1d).then_some(TextPart::Low(code))
    } else if code < OF_TWO {
        is_second(code).then_some(TextPart::Low(code))
    } else if code < OF_THREE {
        Some(TextPart::Low(code))
    } else {
        Some(TextPart::Signs)
    }
}

// Whether these are the first two digits of a second number.
fn is_second(code: u32) -> bool {
    0x1dc <= code && code <= 0x1df
}

// A hexadecimal digit.
fn digit(byte: u8) -> Option<u32> {
    match byte {
        b'0'..=b'9' => Some(u32::from(byte - b'0')),
        b'a'..=b'f' => Some(u32::from(byte - b'a') + 10),
        b'A'..=b'F' => Some(u32::from(byte - b'A') + 10),
        _ => None,
    }
}
