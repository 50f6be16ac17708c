//! Rehearsals that fail.

use crate::run_fault::RunFault;
use ct_board::Board;
use ct_world::World;

/// What a rehearsal leaves that did not make all its turns.
#[derive(Drop)]
pub struct RehearseFault {
    /// Why it did not.
    pub cause: RunFault,
    /// The world after the turns that were made.
    pub world: World,
    /// Its board, the one that was handed in.
    pub board: Board,
}
