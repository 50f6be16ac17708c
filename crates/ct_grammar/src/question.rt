//! What a session is asked.

use ct_names::Member;

/// What a line asks; it changes nothing.
#[derive(Clone, Copy, Debug, PartialEq, Eq)]
pub enum Question {
    /// `enabled 2`: the steps that the member may take by itself.
    Enabled(Member),
    /// `next 2`: what a driver would try.
    Next(Member),
    /// `state 2`: where the member stands.
    State(Member),
    /// `waiting 2`: the envelopes that wait at the member.
    Waiting(Member),
    /// `report`: the report as JSON.
    Report,
    /// `record`: the record as JSON.
    Record,
    /// `limits`: how much of each limit is used.
    Limits,
}
