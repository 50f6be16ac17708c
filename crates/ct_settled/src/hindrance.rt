//! What stands in the way of all being done.

use ct_model::Step;
use ct_names::{Limit, Member, Serial};

/// What stands in the way of all being done where a group came to.
#[derive(Clone, Copy, Debug, PartialEq, Eq)]
pub enum Hindrance {
    /// The envelope of this serial waits at the member.
    Waits(Member, Serial),
    /// The member may take this step.
    May(Step),
    /// The step is refused for this limit.
    Full(Step, Limit),
    /// The member waits for the proposal of this coordinator, which crashed.
    Awaits(Member, Member),
    /// No majority is up.
    Few,
    /// The member never received the envelope of this serial, which one that is up sent it, and it waits no more: it was lost.
    Lost(Member, Serial),
}
