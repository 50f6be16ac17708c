//! Atomic broadcast by consensus (Chandra and Toueg, section 7): what one member received, and what it delivered, a batch
//! for each decision.
#![tactic(auto)]

mod batch;
mod caster;
mod delivered;
mod last;
mod ordered;

pub use batch::Batch;
pub use caster::Caster;
