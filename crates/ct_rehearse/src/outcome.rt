//! What turns come to.

use ct_model::Step;
use ct_names::Refusal;
use ct_world::Effect;

/// What a turn came to.
#[derive(Drop)]
pub enum Turn {
    /// The world did this step, with this effect.
    Stepped(Step, Effect),
    /// There was nothing to try.
    Resting,
    /// The world refused the step that was tried.
    Refused(Refusal),
}
