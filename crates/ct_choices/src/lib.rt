//! What turns of members try.
#![tactic(auto)]

mod choosing;

pub use choosing::{choice, first_waiting, question, tried};
