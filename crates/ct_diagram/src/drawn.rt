//! A step of the window.

use crate::sight::Sight;
use ct_model::Step;

// A step of the window.
#[derive(Clone, Copy, Drop)]
pub(crate) struct Drawn {
    // Its number.
    pub number: usize,
    // How many envelopes had been sent before it.
    pub before: u32,
    // How many after it.
    pub sent: u32,
    // The step.
    pub step: Step,
    // Whether it is a receipt that changes nothing.
    pub is_quiet: bool,
    // How it is drawn.
    pub sight: Sight,
    // Where: half columns from the left edge on.
    pub place: u16,
}
