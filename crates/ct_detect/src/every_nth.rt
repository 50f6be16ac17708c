//! A module that suspects at each n-th call.

ghost use Rattle.std.specs.Prelude.{◌≡◌, ◌+◌, ◌%◌, ◌<◌, ◌↔◌, None, Some, IsTrue, IsSome, IfSome};

use crate::ask::Ask;
use crate::detector::Detector;
use std::marker::Model;

/// It suspects whoever is asked about at call number n, 2n, 3n and so on, and nobody at the others.
#[derive(Debug, Drop)]
pub struct EveryNth {
    every: u32,
    // Modulo `every`, so that it never overflows.
    calls: u32,
    last: Option<(Ask, bool)>,
}

// Contracts see n, the number of calls so far modulo n, and the last ask with its answer.
impl Model for EveryNth {
    ghost use Rattle.std.specs.Prelude.{◌<◌};
    ghost use Rattle.ct_detect.specs.EveryNth.{EveryNthState};

    ghost Value = { EveryNthState };

    ghost view = { λ detector. record { every = detector.every; calls = detector.calls; last = detector.last } };

    ghost invariant = { λ detector. detector.calls < detector.every };
}

impl EveryNth {
    /// A module that suspects at each `n`-th call, and wasn't asked yet. None where `n` is 0.
    pub fn new(n: u32) -> Option<EveryNth>
        ensures valid { IsSome result ↔ (0 < n) }
        ensures value { IfSome result (λ detector. detector ≡ record { every = n; calls = 0; last = None }) }
    {
        if n == 0 {
            return None;
        }
        Some(EveryNth {
            every: n,
            calls: 0,
            last: None,
        })
    }
}

impl Detector for EveryNth {
    ghost last = { λ detector. detector.last };

    /// Whether the number of this call, counted from 1, is a multiple of n.
    fn suspects(&mut self, ask: Ask) -> bool
        ensures answer { IsTrue result ↔ ((self.old.calls + 1) % self.old.every ≡ 0) }
        ensures state { self.new ≡ record self.old { calls = (self.old.calls + 1) % self.old.every; last = Some (ask, result) } }
    {
        self.calls = (self.calls + 1) % self.every;
        let answer = self.calls == 0;
        self.last = Some((ask, answer));
        answer
    }

    fn last(&self) -> Option<(Ask, bool)> {
        self.last
    }
}
