//! A module that suspects every coordinator.

ghost use Rattle.std.specs.Prelude.{◌≡◌, None, Some, true};

use crate::ask::Ask;
use crate::detector::Detector;
use std::marker::Model;

/// It suspects every coordinator.
#[derive(Debug, Drop)]
pub struct Always {
    last: Option<(Ask, bool)>,
}

// Contracts see the last ask with its answer.
impl Model for Always {
    ghost use Rattle.std.specs.Prelude.{Bool, Option};
    ghost use Rattle.ct_detect.specs.declared.ask.Ask.{Ask};

    ghost Value = { Option (Ask × Bool) };

    ghost view = { λ detector. detector.last };
}

impl Always {
    /// A module that wasn't asked yet.
    pub fn new() -> Always
        ensures { result ≡ None }
    {
        Always { last: None }
    }
}

impl Default for Always {
    fn default() -> Always
        ensures { result ≡ None }
    {
        Always::new()
    }
}

impl Detector for Always {
    ghost last = { λ detector. detector };

    /// Always true.
    fn suspects(&mut self, ask: Ask) -> bool
        ensures answer { result ≡ true }
        ensures last { self.new ≡ Some (ask, result) }
    {
        self.last = Some((ask, true));
        true
    }

    fn last(&self) -> Option<(Ask, bool)> {
        self.last
    }
}
