//! Walks, and how near they came.

use ct_names::Round;
use ct_world::World;

// A walk.
#[derive(Drop)]
pub(crate) struct NearWalk {
    // The world after its last turn.
    pub(crate) world: World,
    // Whether it shows what it was made until.
    pub(crate) shows: bool,
    // The largest round that a member came to.
    pub(crate) rounds: Round,
    // What it came to of what it was made until: the largest round, or the largest instance that was decided.
    pub(crate) came_to: u32,
}
