//! The network of a group: every envelope that was sent, and what waits at each member.
#![tactic(auto)]

mod envelopes;
mod line;
mod lines;
mod moves;
mod network;
mod packed;
mod short;

pub use ct_model::Envelope;
pub use network::Network;
