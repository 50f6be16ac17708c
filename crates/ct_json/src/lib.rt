//! What programs see of a run: the report, steps and states as JSON.
#![tactic(auto)]

mod json_envelopes;
mod json_parts;
mod json_state;
mod json_steps;
mod report;

pub use json_state::state_json;
pub use json_steps::{push_refused_json, push_step_json};
pub use report::report_json;
