//! What members do.

use crate::pick::Pick;
use ct_names::{Command, Member, MemberSet};

/// What a member does, in a line of a schedule.
#[derive(Clone, Copy, Debug, PartialEq, Eq)]
pub enum Act {
    /// `submit set 0 7`, `submit add 0 7` or `submit copy 0 1`.
    Submit(Command),
    /// `receive data 1.1`
    Receive(Pick),
    /// `begin`
    Begin,
    /// `enter`
    Enter,
    /// `choose 1`
    Choose(Member),
    /// `adopt`
    Adopt,
    /// `suspect`
    Suspect,
    /// `conclude`
    Conclude,
    /// `deliver`
    Deliver,
    /// `follow`
    Follow,
    /// `crash`
    Crash,
    /// `postpone data 1.1`
    Postpone(Pick),
    /// `lose data 1.1`
    Lose(Pick),
    /// `repeat data 1.1`: of the envelopes that are so named and were sent to the member, the last one that does not wait there.
    Repeat(Pick),
    /// `lose from 2,3`: all that waits at the member and that a step of one of these sent.
    LoseFrom(MemberSet),
}
