//! Reliable broadcast by relaying (Chandra and Toueg, section 4): a member relays a message or a decision when it gets
//! it for the first time from another. Here are the first receipts of one member.
#![tactic(auto)]

mod action;
mod known;
mod marks;
mod relay;
mod relay_id;

pub use action::Action;
pub use relay::Relay;
pub use relay_id::RelayId;
