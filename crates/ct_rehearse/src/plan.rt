//! Plans of runs.

use crate::disturbance::Disturbance;

/// How many turns a plan asks of each member at most.
pub const MAX_TURNS: u32 = 100_000;

/// How many scripts a plan has at most.
pub const MAX_SCRIPTS: usize = 8;

/// How many entries a script has at most.
pub const MAX_ENTRIES: usize = 100_000;

/// What the workers of a run are to do.
#[derive(Drop)]
pub struct Plan {
    /// How many turns each member makes, `MAX_TURNS` at most.
    pub turns: u32,
    /// The entries that each further worker makes, in order: `MAX_SCRIPTS` scripts at most, each of `MAX_ENTRIES` at most.
    pub scripts: Vec<Vec<Disturbance>>,
}
