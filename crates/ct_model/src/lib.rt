//! Chandra and Toueg's atomic broadcast as definitions over whole states, and laws over these alone. The code here
//! is the alphabet: steps, phases and wires. What they mean stands in `specs/`.
#![tactic(auto)]

mod envelope;
mod laws;
mod mail;
mod moves;
mod phase;
mod step;
mod wire;

pub use envelope::Envelope;
pub use laws::{
    law_agreement, law_bound, law_cause, law_count, law_integrity, law_line, law_locked,
    law_prefix, law_relay, law_validity,
};
pub use mail::Mail;
pub use moves::Move;
pub use phase::Phase;
pub use step::Step;
pub use wire::Wire;
