//! Records and reports: the text of a record is read and written, replayed, and its report made.
#![tactic(auto)]

mod head;
mod input;
mod keeper;
mod law;
mod numbers;
mod program_fault;
mod read_fault;
mod reading;
mod replaying;
mod reporting;
mod running;
mod scan;
mod scanning;
mod script;
mod setting_up;
mod so_far;
mod start;
mod taking;
mod version;
mod writing;

pub use law::law_round_trip;
pub use program_fault::ProgramFault;
pub use read_fault::ReadFault;
pub use reading::{MAX_LEN, read_record};
pub use replaying::run_replay;
pub use reporting::report;
pub use script::Script;
pub use writing::{record_line, write_record};
