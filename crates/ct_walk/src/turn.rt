//! What a turn tries.

use ct_model::Step;

/// What the next turn of a walk tries.
#[derive(Clone, Copy, Debug, PartialEq, Eq)]
pub enum Turn {
    /// This step, which the rules may refuse.
    Step(Step),
    /// Nothing: the member whose turn it is has nothing to do, or the entry of a script has no object.
    Rest,
    /// There is no turn left.
    Over,
}
