//! Pieces of texts: lists, values, and where a member stands.
#![tactic(auto)]

mod lists;
mod separator;
mod shapes;
mod standing;

pub use lists::{push_decisions, push_members_of, push_messages, push_table};
pub use separator::push_separator;
pub use shapes::{phase_name, push_estimate, push_set, push_value};
pub use standing::{
    coordinator_of, instance_of, push_batch, push_estimate_alone, push_estimate_of, round_of,
};
