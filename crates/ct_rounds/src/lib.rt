//! A member's part in the rounds of one instance of consensus: what it got, counted by round, and its steps. And quick
//! look-ups in maps whose keys mostly come in order, as rounds and instances do.
#![tactic(auto)]

mod consensus;
mod inbox;
mod lookup;
mod tally;

pub use consensus::Consensus;
pub use ct_model::{Mail, Wire};
pub use inbox::Inbox;
pub use lookup::{find, find_mut, index_in_order};
