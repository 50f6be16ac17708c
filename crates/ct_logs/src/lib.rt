//! The logs of members, merged by a command into one run: as a schedule or as a record, with what the run shows.
#![tactic(auto)]

mod culprit;
mod ending;
mod following;
mod form;
mod group_numbers;
mod growth;
mod judged;
mod log_reading;
mod log_set;
mod merge_fault;
mod naming;
mod no_entry;
mod others;
mod places;
mod presumed;
mod reading;
mod receipt;
mod running;
mod seen;
mod sent;
mod setup;
mod showing;
mod sources;
mod tail;
mod told;
mod torn;
mod unmet;
mod way;
mod words;
mod writing;

pub use form::Form;
pub use merge_fault::MergeFault;
pub use running::merge_logs;
pub use told::Told;
pub use way::Way;
pub use words::{merge_command, merge_form};
