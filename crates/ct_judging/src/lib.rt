//! What schedules come to: the definitions, by which the judge goes and of which whoever writes schedules has to know.
#![tactic(auto)]

mod bounds;
mod heading;
mod misread;
mod right;

pub use bounds::{LONGEST_SHOWN, MOST_NAMED};
pub use heading::{Heading, USUAL_CELLS};
pub use misread::Misread;
pub use right::Right;
