//! Walks: runs of a group in one thread, whose worker of each turn is drawn from a seed. The same options give the same
//! record.
#![tactic(auto)]

mod adversary;
mod answering;
mod call;
mod call_fault;
mod came;
mod choosing;
mod draws;
mod fault;
mod goals;
mod missed;
mod near_walk;
mod nearness;
mod options;
mod script;
mod sight;
mod sizing;
mod turn;
mod turns;
mod walk_size;
mod walker;
mod walking;
mod words;
mod worlds;
mod writing;

pub use call::{Seeds, WalkCall};
pub use call_fault::CallFault;
pub use fault::WalkFault;
pub use goals::{given_goal, group_goal, joined};
pub use missed::Missed;
pub use options::WalkOptions;
pub use sight::Sight;
pub use sizing::size_if_shown;
pub use turn::Turn;
pub use turns::Turns;
pub use walk_size::WalkSize;
pub use walking::walk;
pub use words::{search_options, seeds_in, walk_call, walk_command, with_search_options};
pub use worlds::start_shows;
pub use writing::write_walk;
