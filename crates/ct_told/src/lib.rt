//! What is told of an input that is no record, and of what fails when a record is shown.
#![tactic(auto)]

mod given_name;
mod json_front;
mod key;
mod no_record;
mod number_part;
mod odd_record;
mod odd_step;
mod place;
mod reading;
mod show_fault;
mod text_part;

pub use no_record::{NoRecord, begins_schedule};
pub use reading::read_told;
pub use show_fault::ShowFault;
