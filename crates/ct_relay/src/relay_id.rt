//! What names the messages and decisions that are relayed.

use ct_names::{Instance, Member, Round};

/// What is relayed at its first receipt. Two are equal where they are of one kind and their numbers are equal.
#[derive(Clone, Copy, Debug, PartialEq, Eq, Hash)]
pub enum RelayId {
    /// The message of that number among those of its origin, counted from 1.
    Data { origin: Member, number: u32 },
    /// The decision of that instance, made in that round.
    Dec { instance: Instance, round: Round },
}
