//! The phases of a round.

/// Where a member stands in its round (Chandra and Toueg, section 6.2): no round is running, the coordinator gathers
/// estimates, the proposal is awaited, the coordinator tallies replies.
#[derive(Clone, Copy, Debug, PartialEq, Eq)]
pub enum Phase {
    Rest,
    Gather,
    Wait,
    Tally,
}
