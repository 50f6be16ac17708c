//! The instances of consensus of one member: what it got, by instance, the one that it has open, and its steps there.
#![tactic(auto)]

mod entry;
mod instances;

pub use instances::Instances;
