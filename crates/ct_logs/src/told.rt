//! What is told of runs that were written.

ghost use Rattle.std.specs.Prelude.{◌≡◌};
ghost use Rattle.ct_logs.specs.Faults.{told_status};

// The status of a run in which steps are presumed.
const PRESUMED: u8 = 7;

/// What is told of a run that was written.
#[derive(Drop)]
pub struct Told {
    pub text: String,
    /// Steps of the run are presumed, behind logs of which the end is taken to be lost.
    pub is_presumed: bool,
}

impl Told {
    /// The status that a program ends with: 0, or 7 where steps are presumed.
    pub fn status(&self) -> u8
        ensures { result ≡ told_status self.now }
    {
        if self.is_presumed { PRESUMED } else { 0 }
    }
}
