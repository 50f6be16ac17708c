//! What a member does with what it received.

/// What a member does with a message or a decision that it received.
#[derive(Clone, Copy, Debug, PartialEq, Eq)]
pub struct Action {
    /// Whether it sends it to all: this is its first receipt, and the sender is another than this member.
    pub relay: bool,
    /// Whether it delivers it: this is its first receipt.
    pub deliver: bool,
}
