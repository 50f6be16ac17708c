//! Schedules: texts, a line a step, that the proved rules judge.
#![tactic(auto)]

mod answering;
mod fault_texts;
mod heading;
mod heard;
mod hindering;
mod interacting;
mod judge;
mod keep_fault;
mod keeping;
mod line_refused;
mod misread;
mod missing;
mod naming;
mod partial;
mod printing;
mod reading;
mod record_fault;
mod recorder;
mod recording;
mod refusing;
mod righting;
mod session;
mod session_fault;
mod steps;
mod stop;
mod telling;
mod trying;
mod wording;
mod words;

pub use ct_judging::{Heading, LONGEST_SHOWN, MOST_NAMED, USUAL_CELLS};
pub use ct_play::LineFault;
pub use heard::Heard;
pub use hindering::push_hindrance;
pub use interacting::interact;
pub use judge::Judge;
pub use keep_fault::KeepFault;
pub use keeping::keep;
pub use line_refused::LineRefused;
pub use partial::record_partial;
pub use reading::push_shown;
pub use record_fault::RecordFault;
pub use recording::{MAX_LEN, played, record, recorded};
pub use session::{LONGEST, Session};
pub use session_fault::SessionFault;
pub use words::{interact_command, record_command};
