//! Why a replay stopped.

use ct_names::Refusal;

/// The first step that was refused.
#[derive(Clone, Copy, Debug, PartialEq, Eq)]
pub struct ReplayFault {
    /// The step, counted from 1; 0 where the world could not be made.
    pub at: usize,
    /// Why: the step's cause of refusal, or want of memory.
    pub refusal: Refusal,
}
