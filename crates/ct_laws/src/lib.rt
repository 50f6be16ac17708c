//! Laws of the definitions by which schedules and sessions are judged, facts expected, walks made, refusals told and diagrams drawn: what
//! they come to, in words of lines, steps, states and envelopes. Laws of what is written as JSON: the values that it is read as. What runs
//! have to do with atomic broadcast.
#![tactic(auto)]

mod diagrams;
mod expectations;
mod facts;
mod orders;
mod reading_json;
mod rights;
mod schedules;
mod sessions;
mod tries;
mod untils;
mod walks;

pub use diagrams::law_diagram;
pub use expectations::law_expect;
pub use facts::law_facts;
pub use orders::law_order;
pub use reading_json::{law_fitting, law_report_json, law_state_json, law_steps_json};
pub use rights::law_right;
pub use schedules::law_schedule;
pub use sessions::law_session;
pub use tries::law_try;
pub use untils::law_until;
pub use walks::{law_turns, law_walk};
