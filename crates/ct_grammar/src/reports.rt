//! What reports say of members: messages by their names, decisions, tables and estimates, and their words.

mod decision;
mod decisions;
mod estimate;
mod listed;
mod names;
mod reading_names;
mod reporting;

pub use decision::Decision;
pub use decisions::Decisions;
pub use estimate::Estimate;
pub use listed::Listed;
pub use names::Names;
pub(crate) use reading_names::{listed, name};
pub(crate) use reporting::{decisions, estimate, messages, table, ts};
