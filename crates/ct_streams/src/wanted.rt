//! What would be right for an option.

ghost use Rattle.std.specs.Prelude.{Some};
ghost use Rattle.ct_streams.specs.WordFaults.{wanted_text};

use std::fmt;

/// What would be right for an option.
#[derive(Clone, Copy, Debug, Drop)]
pub enum Wanted<'a> {
    /// Another number, from `low` to `high`.
    Within {
        /// The smallest.
        low: u32,
        /// The largest.
        high: u32,
    },
    /// A whole number at all, from `low` to `high`.
    Number {
        /// The smallest.
        low: u32,
        /// The largest.
        high: u32,
    },
    /// What the words say.
    Words(&'a str),
}

impl fmt::Display for Wanted<'_> {
    ghost output = { λ wanted. Some (wanted_text wanted) };

    fn fmt<W: fmt::Write>(&self, f: &mut fmt::Formatter<W>) -> fmt::Result {
        match *self {
            Wanted::Within {
                low,
                high: u32::MAX,
            } => write!(f, "{low} or more"),
            Wanted::Within { low, high } => write!(f, "{low} to {high}"),
            Wanted::Number { low, high } => write!(f, "a whole number from {low} to {high}"),
            Wanted::Words(words) => f.write_str(words),
        }
    }
}
