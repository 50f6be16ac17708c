//! What the lines of a schedule come to in a world.
#![tactic(auto)]

mod acting;
mod address;
mod claims;
mod cuts;
mod expecting;
mod facts;
mod goals;
mod index;
mod line_fault;
mod naming;
mod outcomes;
mod picking;
mod playing;
mod stage;
mod stating;
mod strangers;
mod turning;
mod watch;

pub use acting::step_of;
pub use claims::amount_of;
pub use cuts::first_near;
pub use expecting::unmet;
pub use facts::{push_there, push_wanted};
pub use line_fault::LineFault;
pub use outcomes::{Came, is_stated, outcome, push_came};
pub use picking::{carried_of, picked, repeated, waiting_at, waits_at};
pub use playing::play;
pub use stage::Stage;
pub use stating::push_came_to;
pub use strangers::stranger;
pub use turning::ended;
pub use watch::Watch;
