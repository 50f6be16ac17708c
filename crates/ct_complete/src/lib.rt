//! How runs could end: a record goes on until all that are up have delivered the same.
#![tactic(auto)]

mod complete_fault;
mod completing;
mod obstacle;
mod obstacle_json;
mod running;
mod words;

pub use complete_fault::CompleteFault;
pub use obstacle::Obstacle;
pub use obstacle_json::write_obstacle;
pub use running::write_completed;
pub use words::complete_command;
