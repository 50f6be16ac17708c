//! What a member can receive.

use ct_names::Member;
use ct_rounds::Wire;

/// What a member can receive.
#[derive(Clone, Copy)]
pub(crate) struct Arrival {
    /// The place of its serial in the member's line.
    pub place: usize,
    /// To whom its envelope goes.
    pub to: Member,
    /// The wire in it.
    pub wire: Wire,
    /// Whether that is a message or a decision that comes for the first time.
    pub new: bool,
}
