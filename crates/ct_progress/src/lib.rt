//! Whether all is done in a world, and whether nothing moves in it any more; laws on what both mean.
#![tactic(auto)]

mod laws;
mod progress;

pub use laws::{law_settled, law_stuck};
pub use progress::{is_settled, is_stuck};
