//! What logs tell of.

ghost use Rattle.std.specs.Prelude.{◌≡◌};
ghost use Rattle.ct_merge.specs.Merging.{received};

use crate::full_name::FullName;
use ct_names::{Command, Member};

/// What a member did, as its log tells it.
#[derive(Clone, Copy)]
pub enum LogAct {
    /// `submit set 0 7`
    Submit(Command),
    /// `receive est 1/1 from 3`
    Receive(FullName),
    /// `begin`
    Begin,
    /// `enter`
    Enter,
    /// `choose 1`
    Choose(Member),
    /// `adopt`
    Adopt,
    /// `suspect`
    Suspect,
    /// `conclude`
    Conclude,
    /// `deliver`
    Deliver,
    /// `follow`
    Follow,
    /// `crash`
    Crash,
}

impl LogAct {
    // The name of what it receives, if it is a receipt.
    pub(crate) fn received(self) -> Option<FullName>
        ensures { result ≡ received self }
    {
        match self {
            LogAct::Receive(name) => Some(name),
            _ => None,
        }
    }
}
