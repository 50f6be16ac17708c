//! What a failure detector is asked.

use ct_names::{Instance, Member, Round};

/// Does this member suspect the coordinator of this round of this instance?
#[derive(Clone, Copy, Debug, PartialEq, Eq)]
pub struct Ask {
    /// The member that asks.
    pub member: Member,
    /// The member that coordinates the round. It may be the one that asks.
    pub coordinator: Member,
    /// The instance of consensus, from 1.
    pub instance: Instance,
    /// The round of the instance, from 1.
    pub round: Round,
}
