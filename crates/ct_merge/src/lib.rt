//! The logs of members, merged into one run.
//!
//! A log has what one member did, line by line in its own order: an act, and what it came to where that is stated. An envelope is
//! named in full, by what it carries and whose step sent it, so that a line's place among the lines of the others need not be known:
//! it stands behind the line that sent the envelope. A second receipt of one name is a repetition by the network.
#![tactic(auto)]

mod culprit_text;
mod entering;
mod entry;
mod expectation;
mod expecting;
mod full_name;
mod furthest;
mod laws;
mod log_act;
mod log_fault;
mod log_line;
mod log_text;
mod merger;
mod merging;
mod naming;
mod numbers;
mod own_fault;
mod progress;
mod refusals;
mod sending;
mod sending_line;
mod stand;
mod standstill;
mod stopped_line;
mod stopped_lines;
mod taker;
mod taking_all;
mod tally;
mod testing;
mod unsent;
mod verdict;

pub use culprit_text::push_why;
pub use entry::NoEntry;
pub use expectation::{Expectation, Expectations};
pub use full_name::FullName;
pub use furthest::stopped;
pub use laws::{law_local, law_merge, law_names, law_same, law_stopped};
pub use log_act::LogAct;
pub use log_fault::LogFault;
pub use log_line::LogLine;
pub use log_text::LogText;
pub use merger::Merger;
pub use merging::merge;
pub use naming::full_name as name_of;
pub use numbers::Numbers;
pub use own_fault::OwnFault;
pub use progress::Progress;
pub use sending::{may_come, submitted};
pub use stand::Stand;
pub use stopped_line::StoppedLine;
pub use stopped_lines::StoppedLines;
pub use testing::{Unmet, first_unmet};
pub use verdict::{Culprit, Verdict, Why};
