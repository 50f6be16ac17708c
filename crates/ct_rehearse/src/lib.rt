//! A world under a lock, and the turns that threads make on it.
#![tactic(auto)]

mod crew;
mod desk;
mod disturbance;
mod entries;
mod gate;
mod hall;
mod made;
mod marks;
mod outcome;
mod pace;
mod patience;
mod plan;
mod plays;
mod pool;
mod rehearse_fault;
mod rehearsed;
mod rehearsing;
mod run_fault;
mod running;
mod share;
mod starting;
mod stride;
mod turns;
mod worked;
mod working;

pub use ct_choices::{choice, question};
pub use desk::Desk;
pub use disturbance::Disturbance;
pub use entries::entry_step;
pub use gate::{Gate, NoGate};
pub use hall::Hall;
pub use made::Made;
pub use outcome::Turn;
pub use plan::{MAX_ENTRIES, MAX_SCRIPTS, MAX_TURNS, Plan};
pub use plays::{Played, play};
pub use rehearse_fault::RehearseFault;
pub use rehearsed::Rehearsed;
pub use rehearsing::rehearse;
pub use run_fault::RunFault;
pub use share::Share;
pub use turns::{disturb, turn};
