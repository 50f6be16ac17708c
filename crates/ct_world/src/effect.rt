//! What a step does besides its state.

ghost use Rattle.std.specs.Prelude.{◌≡◌, None};

use ct_board::Receipt;

/// What a step did.
#[derive(Drop)]
pub struct Effect {
    /// How many envelopes it sent.
    pub sent: u32,
    /// Where its batch was posted, if it is the first Deliver or Follow of an instance: at the place of that number, less 1.
    pub receipt: Option<Receipt>,
}

impl Effect {
    // That of a step which posts nothing.
    pub(crate) fn of(sent: u32) -> Effect
        ensures sent { result.sent ≡ sent }
        ensures none { result.receipt ≡ None }
    {
        Effect {
            sent,
            receipt: None,
        }
    }
}
