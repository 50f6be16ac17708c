//! What is told of a search while it runs.

/// What is told after each block of seeds. What is told and answered changes nothing of what is found.
pub trait Progress {
    /// The seeds up to this one were tried, and the walks of so many of them show the goal. It answers how many milliseconds the block
    /// took, where somebody waits for the next one.
    fn tell(&mut self, last: u32, shown: usize) -> Option<u64>;
}

/// Tells nothing.
#[derive(Clone, Copy, Debug, Drop)]
pub struct Silent;

impl Progress for Silent {
    fn tell(&mut self, _last: u32, _shown: usize) -> Option<u64> {
        None
    }
}
