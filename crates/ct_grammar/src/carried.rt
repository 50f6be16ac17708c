//! What envelopes carry, as far as lines name it.

use ct_names::{Instance, Member, Round};

/// What an envelope carries, as far as a line of a schedule names it.
#[derive(Clone, Copy, Debug, PartialEq, Eq, Hash)]
pub enum Carried {
    /// `data 1.2`: a message, by its origin and its number.
    Data(Member, u32),
    /// `est 1/2`: an estimate, by its instance and its round.
    Est(Instance, Round),
    /// `prop 1/2`
    Prop(Instance, Round),
    /// `ack 1/2`
    Ack(Instance, Round),
    /// `nack 1/2`
    Nack(Instance, Round),
    /// `dec 1/2`: a decision, by its instance and the round in which it was made.
    Dec(Instance, Round),
}
