//! What goals say of members.

use crate::fact::Fact;
use crate::reason::Reason;
use ct_names::{Instance, Member};

/// What a term of a goal says of a member.
#[derive(Drop)]
pub enum Claim {
    /// What a line may expect.
    Fact(Fact),
    /// `round >= 4`, `delivered count 3`
    Amount(Amount, Extent),
    /// `decided 2`: it got the decision of this instance.
    Got(Instance),
    /// `delivered 2.1 before 1.1`: it delivered both, the first one before the second.
    Before(Name, Name),
    /// `refuses choose NotLargest`: the choice of an estimate that it heard for its round would be refused for this reason.
    RefusesChoice(Reason),
    /// `suspects up`: the last step is its suspicion of a coordinator that has not crashed.
    SuspectsUp,
    /// `follows 2`: the last step is its follow, of this instance.
    Follows(Instance),
    /// `chooses unseen`: the last step is its choice of an estimate of a ts above 0, and it never got the proposal of that round.
    ChoosesUnseen,
    /// `concludes again`: the last step is its conclusion, by which it sent a decision of an instance of which one of another
    /// round had been sent.
    ConcludesAgain,
    /// `settled`: it crashed, or all is done in the group.
    Settled,
    /// `stuck`: it is up and nobody can move, and yet not all is done.
    Stuck,
}

/// What is counted of a member.
#[derive(Clone, Copy, Debug, PartialEq, Eq)]
pub enum Amount {
    /// `instance`: the number of the last instance that it began, 0 before the first.
    Instance,
    /// `round`: the number of the round that it is in, 0 where it is in none.
    Round,
    /// `waiting`: how many envelopes wait there.
    Waiting,
    /// `received count`: how many messages it received.
    Received,
    /// `decided count`: of how many instances it got the decision.
    Decided,
    /// `delivered count`: how many messages it delivered.
    Delivered,
}

/// How much it has to be.
#[derive(Clone, Copy, Debug, PartialEq, Eq)]
pub enum Extent {
    /// `3`
    Exactly(u32),
    /// `>= 3`
    AtLeast(u32),
}

/// The name of a message: its origin and its number there, as `2.1`.
#[derive(Clone, Copy, Debug, PartialEq, Eq)]
pub struct Name {
    /// The origin.
    pub origin: Member,
    /// Its number there, from 1.
    pub number: u32,
}
