//! What all failure detectors have in common.

ghost use Rattle.std.specs.Prelude.{◌≡◌, Bool, Option, Some};

use crate::ask::Ask;

/// A member's module of a failure detector (Chandra and Toueg, section 2.2). It may answer anything: no law binds its
/// answers, and it may be wrong at any time. It keeps the last ask with the answer that it gave.
pub trait Detector: Send + Drop {
    ghost use Rattle.ct_detect.specs.declared.ask.Ask.{Ask};

    // The ask that was answered last, with its answer.
    ghost last: { Self → Option (Ask × Bool) };

    /// Whether the member suspects the coordinator, now.
    fn suspects(&mut self, ask: Ask) -> bool
        ensures { last self.new ≡ Some (ask, result) };

    /// The ask that was answered last, with its answer; None before the first.
    fn last(&self) -> Option<(Ask, bool)>
        ensures { result ≡ last self.now };
}
