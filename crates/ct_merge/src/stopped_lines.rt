//! The lines at which the logs of a group stand.

use crate::stopped_line::StoppedLine;
use crate::verdict::Culprit;
use ct_world::World;

/// The lines at which logs stand that are taken as far as they go: one of each log that is not over.
#[derive(Drop)]
pub struct StoppedLines {
    /// Those that are refused by themselves, in the order in which they are found.
    pub refused: Vec<Culprit>,
    /// Of each other log its next line behind the run of all.
    pub waiting: Vec<StoppedLine>,
    /// The run of all, as far as they go.
    pub run: World,
}
