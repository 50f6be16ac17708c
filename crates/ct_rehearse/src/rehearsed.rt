//! What rehearsals leave.

use crate::made::Made;
use ct_board::Board;
use ct_world::World;

/// What a rehearsal leaves.
#[derive(Drop)]
pub struct Rehearsed {
    /// The world after all turns.
    pub world: World,
    /// Its board, the one that was handed in.
    pub board: Board,
    /// What the turns came to.
    pub made: Made,
}
