//! A module that suspects nobody.

ghost use Rattle.std.specs.Prelude.{◌≡◌, None, Some, false};

use crate::ask::Ask;
use crate::detector::Detector;
use std::marker::Model;

/// It suspects nobody.
#[derive(Debug, Drop)]
pub struct Never {
    last: Option<(Ask, bool)>,
}

// Contracts see the last ask with its answer.
impl Model for Never {
    ghost use Rattle.std.specs.Prelude.{Bool, Option};
    ghost use Rattle.ct_detect.specs.declared.ask.Ask.{Ask};

    ghost Value = { Option (Ask × Bool) };

    ghost view = { λ detector. detector.last };
}

impl Never {
    /// A module that wasn't asked yet.
    pub fn new() -> Never
        ensures { result ≡ None }
    {
        Never { last: None }
    }
}

impl Default for Never {
    fn default() -> Never
        ensures { result ≡ None }
    {
        Never::new()
    }
}

impl Detector for Never {
    ghost last = { λ detector. detector };

    /// Always false.
    fn suspects(&mut self, ask: Ask) -> bool
        ensures answer { result ≡ false }
        ensures last { self.new ≡ Some (ask, result) }
    {
        self.last = Some((ask, false));
        false
    }

    fn last(&self) -> Option<(Ask, bool)> {
        self.last
    }
}
