//! Parts of numbers in JSON.

// What stands last in a number that was begun.
#[derive(Clone, Copy)]
pub(crate) enum NumberPart {
    Minus,
    Zero,
    Whole,
    Point,
    Fraction,
    // The sign of a power.
    E,
    Sign,
    Power,
}

impl NumberPart {
    /// That of the first byte, if a number begins with it.
    pub(crate) fn first(byte: u8) -> Option<NumberPart> {
        if byte == b'-' {
            Some(NumberPart::Minus)
        } else {
            digits(byte)
        }
    }

    /// That of the next byte, if the number may go on with it.
    pub(crate) fn next(self, byte: u8) -> Option<NumberPart> {
        match self {
            NumberPart::Minus => digits(byte),
            NumberPart::Zero => behind_whole(byte),
            NumberPart::Whole => if_digit(byte, NumberPart::Whole).or(behind_whole(byte)),
            NumberPart::Point => if_digit(byte, NumberPart::Fraction),
            NumberPart::Fraction => if_digit(byte, NumberPart::Fraction).or(behind_fraction(byte)),
            NumberPart::E if byte == b'+' || byte == b'-' => Some(NumberPart::Sign),
            NumberPart::E | NumberPart::Sign | NumberPart::Power => {
                if_digit(byte, NumberPart::Power)
            }
        }
    }

    /// Whether the number may end behind it.
    pub(crate) fn may_end(self) -> bool {
        match self {
            NumberPart::Zero | NumberPart::Whole | NumberPart::Fraction | NumberPart::Power => true,
            NumberPart::Minus | NumberPart::Point | NumberPart::E | NumberPart::Sign => false,
        }
    }
}

fn digits(byte: u8) -> Option<NumberPart> {
    if byte == b'0' {
        Some(NumberPart::Zero)
    } else {
        if_digit(byte, NumberPart::Whole)
    }
}

fn behind_whole(byte: u8) -> Option<NumberPart> {
    if byte == b'.' {
        Some(NumberPart::Point)
    } else {
        behind_fraction(byte)
    }
}

fn behind_fraction(byte: u8) -> Option<NumberPart> {
    (byte == b'e' || byte == b'E').then_some(NumberPart::E)
}

fn if_digit(byte: u8, part: NumberPart) -> Option<NumberPart> {
    byte.is_ascii_digit().then_some(part)
}
