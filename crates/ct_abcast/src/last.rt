//! The largest number of each origin that was delivered.

ghost use Rattle.std.specs.Prelude.{◌≡◌, ℕ, ◌<◌, ◌≤◌, slice_index};
ghost use Rattle.ct_abcast.specs.Last.{is_past};

use ct_names::{MAX_MEMBERS, Message};
use std::marker::Model;

/// Of how many origins a number is kept: of the members that a group can have, each at its own place, and of 0.
pub(crate) const ORIGINS: usize = MAX_MEMBERS as usize + 1;

/// Of each origin below [`ORIGINS`] the largest number of its messages, or 0 where there is none.
#[derive(Clone, Copy)]
pub(crate) struct Last {
    numbers: [u32; ORIGINS],
}

// Contracts see the list of numbers.
impl Model for Last {
    ghost use Rattle.std.specs.Prelude.{ℕ, List};

    ghost Value = { List ℕ };

    ghost view = { λ last. last.numbers };

    ghost inverse = { λ numbers. record { numbers = numbers } };
}

impl Last {
    // There is no message.
    pub(crate) fn new() -> Last
        ensures { (origin : ℕ) → slice_index result origin ≡ 0 }
    {
        Last {
            numbers: [0; ORIGINS],
        }
    }

    // Whether the message's number is larger than all of its origin.
    pub(crate) fn is_past(&self, message: &Message) -> bool
        ensures { result ≡ is_past self.now message.now }
    {
        let origin = usize::from(message.origin());
        origin < ORIGINS && self.numbers[origin] < message.number()
    }

    // Notes that there is the message.
    pub(crate) fn see(&mut self, message: &Message)
        ensures here { message.now.origin < ORIGINS → message.now.number ≤ slice_index self.new message.now.origin }
        ensures grown { (origin : ℕ) → slice_index self.old origin ≤ slice_index self.new origin }
    {
        let origin = usize::from(message.origin());
        if origin < ORIGINS {
            self.numbers[origin] = message.number().max(self.numbers[origin]);
        }
    }
}
