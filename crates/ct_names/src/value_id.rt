//! Numbers of values.

ghost use Rattle.std.specs.Prelude.{◌≡◌};

use std::marker::Model;

/// The number of a value in a book, counted from 0.
#[derive(Clone, Copy, Debug, PartialEq, Eq, PartialOrd, Ord)]
pub struct ValueId {
    number: u32,
}

// Contracts see the number.
impl Model for ValueId {
    ghost use Rattle.std.specs.Prelude.{ℕ};

    ghost Value = { ℕ };

    ghost view = { λ id. id.number };

    ghost inverse = { λ n. record { number = n } };
}

impl ValueId {
    /// The id of that number.
    pub fn new(number: u32) -> ValueId
        ensures { result ≡ number }
    {
        ValueId { number }
    }

    /// The number.
    pub fn number(self) -> u32
        ensures { result ≡ self }
    {
        self.number
    }
}
