//! The world of a rehearsal: a record of steps, and what they lead to. Its type says that the record is a run of the
//! algorithm that ends in this world.
#![tactic(auto)]

mod arrival;
mod closing;
mod effect;
mod kept;
mod letter;
mod outcome;
mod prepared;
mod replay;
mod replay_fault;
mod seat;
mod seats;
mod setup;
mod stage;
mod world;

pub use effect::Effect;
pub use letter::{Letter, Wire};
pub use outcome::Outcome;
pub use replay::{Replay, Replayed};
pub use replay_fault::ReplayFault;
pub use setup::Setup;
pub use stage::Stage;
pub use world::World;
