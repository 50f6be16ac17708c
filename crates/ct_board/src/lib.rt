//! The board on which the batches of atomic broadcast are posted, and its watchers, which follow the posted batches with
//! neither lock nor memory.
#![tactic(auto)]

mod board;
mod notes;
mod receipt;
mod watcher;

pub use board::Board;
pub use receipt::Receipt;
pub use watcher::Watcher;
