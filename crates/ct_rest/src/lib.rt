//! Laws of the definitions of ct_model on progress: what is done where nothing moves any more, and when a round ends with a decision.
#![tactic(auto)]

mod laws;

pub use laws::{law_rest, law_stable};
