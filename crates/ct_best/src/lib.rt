//! The smallest of the runs that are left of several walks: those of the first seeds whose walks show a goal are made smaller.
#![tactic(auto)]

mod best;
mod fault;
mod shrinking;
mod smaller_walk;
mod words;
mod writing;

pub use best::{Best, BestOptions};
pub use fault::BestFault;
pub use smaller_walk::SmallerWalk;
pub use words::best_options;
pub use writing::write_best;
