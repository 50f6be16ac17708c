//! Logs of any atomic broadcast, enacted: a schedule of the algorithm whose run has their deliveries.
#![tactic(auto)]

mod checking;
mod enact_fault;
mod group;
mod running;
mod scheme;

pub use enact_fault::EnactFault;
pub use running::enact_logs;
