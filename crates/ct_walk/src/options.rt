//! What a walk is started with.

ghost use Rattle.std.specs.Prelude.{◌≡◌};
ghost use Rattle.ct_walk.specs.Options.{with_seed};

use ct_program::FreeOptions;

/// The options of a walk.
#[derive(Clone, Copy, Debug, Drop, PartialEq, Eq)]
pub struct WalkOptions {
    /// The options that a walk shares with a free run. A walk has `turns` turns for each member and one for each entry of the
    /// scripts. Whose a turn is, is drawn from the seed `seed`, beside the failure detectors, of which member m's starts from
    /// the seed `seed` + m; so a member may take more turns than `turns`, or fewer, and an entry may not be made.
    pub run: FreeOptions,
    /// The first script makes an entry at turn number `every`, at twice that, and so on, up to 100,000; 0 for a script
    /// whose turns are drawn like all others.
    pub every: u32,
    /// How many of 256 words have a member receive from a place of its line that is drawn, up to 256; else it receives what waits
    /// first.
    pub scatter: u16,
    /// How many of 256 words have a member suspect on, up to 256: one that its detector says no to about a coordinator that it
    /// suspected when it last asked about it.
    pub lasting: u16,
    /// How many members crash, besides that of `run`, at turns that are drawn: short of half of the group. One may be named twice.
    pub crashes: u8,
    /// How many times the group is cut in two, up to 1000. When each cut begins and ends, and who is on which side, is drawn.
    pub cuts: u16,
}

impl WalkOptions {
    /// The same with another seed.
    pub fn with_seed(&self, seed: u32) -> WalkOptions
        ensures { result ≡ with_seed self.now seed }
    {
        WalkOptions {
            run: FreeOptions { seed, ..self.run },
            ..*self
        }
    }
}
