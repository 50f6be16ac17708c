//! What is done to members from outside.

use ct_names::{Command, Member, Serial};

/// An entry of a script: what it has a member do, whatever the member would do by itself.
#[derive(Clone, Copy, Debug, PartialEq, Eq)]
pub enum Disturbance {
    /// The member broadcasts a message with this command.
    Submit(Member, Command),
    /// The member stops for good.
    Crash(Member),
    /// The first serial of the member's waiting line moves to its end.
    Postpone(Member),
    /// The first serial of the member's waiting line is lost.
    Lose(Member),
    /// The serial, which was sent to the member and doesn't wait, comes to the end of its line again.
    Repeat(Member, Serial),
}
