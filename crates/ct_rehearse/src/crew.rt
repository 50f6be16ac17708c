//! What the workers of a run share.

use crate::hall::Hall;
use crate::pace::Pace;
use std::sync::ledger::Ledger;

// What the workers of a run share: the hall, the handle by which they wait, the gate, and the pace.
#[derive(Drop)]
pub(crate) struct Crew<'s, L: Ledger, R, G> {
    pub(crate) hall: &'s Hall<L>,
    pub(crate) rt: &'s R,
    pub(crate) gate: &'s G,
    pub(crate) pace: &'s Pace,
}

impl<'s, L: Ledger, R, G> Crew<'s, L, R, G> {
    // The same once more, for another worker.
    pub(crate) fn again(&self) -> Crew<'s, L, R, G> {
        Crew {
            hall: self.hall,
            rt: self.rt,
            gate: self.gate,
            pace: self.pace,
        }
    }
}
