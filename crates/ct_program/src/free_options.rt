//! What a free run is started with.

/// How many turns each driver takes at most.
pub const MAX_TURNS: u32 = 100_000;

/// The largest rate: of so many random answers of a failure detector it counts those that suspect the coordinator.
pub const MAX_RATE: u16 = 256;

/// How many submissions, postponements, losses and repetitions there are at most, of each.
pub const MAX_EACH: u16 = 1_000;

/// The options of a free run, each under its name.
#[derive(Clone, Copy, Debug, Drop, PartialEq, Eq)]
pub struct FreeOptions {
    /// The number of members, from 1 to 16.
    pub members: u8,
    /// How many turns each driver takes, up to 100,000.
    pub turns: u32,
    /// Member m's failure detector starts from the seed `seed` + m.
    pub seed: u32,
    /// How many of 256 random answers of a failure detector suspect the coordinator, up to 256.
    pub rate: u16,
    /// How many cells there are for batches, up to 1024.
    pub cells: u16,
    /// How many submissions the first script makes, up to 1000. Submission i, from 1, is `Add((i - 1) mod 16, i)` by
    /// member `((i - 1) mod members) + 1`.
    pub submit: u16,
    /// The member that the first script crashes at its end, up to 16; 0 for none.
    pub crash: u8,
    /// How many postponements the second script makes, up to 1000. Postponement j, from 1, is at member
    /// `((j - 1) mod members) + 1`.
    pub postpone: u16,
    /// How many times the third script loses what waits first, up to 1000. Loss j, from 1, is at member
    /// `((j - 1) mod members) + 1`.
    pub lose: u16,
    /// How many repetitions the fourth script makes, up to 1000. Repetition j, from 1, is of serial j at member
    /// `((j - 1) mod members) + 1`.
    pub repeat: u16,
    /// How many messages a member proposes at most for an instance, from 1 to 1,048,560.
    pub batch: u32,
}
