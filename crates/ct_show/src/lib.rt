//! What people see of a run.
#![tactic(auto)]

mod acts;
mod details;
mod facts;
mod lines;
mod own;
mod shapes;
mod state;
mod traced;
mod wires;

pub use details::{LETTERS, OTHER_LETTERS, letter_of, push_detail};
pub use facts::{last_taking, push_facts, push_member_facts, push_refused};
pub use lines::push_line;
pub use own::{enabled_steps, first_receipt, next_steps, own_steps, told_refusal};
pub use state::{sender_at, state_text};
pub use traced::{Traced, trace};
pub use wires::{push_round, push_serial};
