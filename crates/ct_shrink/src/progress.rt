//! What is told of trials.

/// Somebody who is told after each trial.
pub trait Progress {
    /// So many trials were made, and the run has so many steps now.
    fn tried(&mut self, trials: u32, steps: usize);
}
