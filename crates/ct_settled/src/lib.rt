//! What stands in the way of all being done, how a run could end, and a law of schedules on progress: what is done once a line `all settle`
//! was played.
#![tactic(auto)]

mod completing;
mod hindering;
mod hindrance;
mod laws;
mod losing;

pub use completing::complete;
pub use hindering::hindrance_of;
pub use hindrance::Hindrance;
pub use laws::{law_hindrance, law_settles};
