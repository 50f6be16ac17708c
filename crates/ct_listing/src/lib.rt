//! Records as schedules: texts of which the judge of schedules makes the same records.
#![tactic(auto)]

mod acting;
mod closing;
mod expecting;
mod heading;
mod lines;
mod naming;
mod remarks;
mod running;
mod told;
mod words;
mod writing;

pub use acting::act_of;
pub use naming::{MOST_SINCE, Naming};
pub use running::write_schedule;
pub use words::schedule_command;
pub use writing::{replay, schedule_expecting, schedule_of};
