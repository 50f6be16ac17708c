//! A module that suspects the members of a set.

ghost use Rattle.std.specs.Prelude.{◌≡◌, None, Some};
ghost use Rattle.ct_names.specs.MemberSet.{has_member};

use crate::ask::Ask;
use crate::detector::Detector;
use ct_names::MemberSet;
use std::marker::Model;

/// It suspects the coordinators that are in its set.
#[derive(Debug, Drop)]
pub struct Listed {
    suspected: MemberSet,
    last: Option<(Ask, bool)>,
}

// Contracts see the set, and the last ask with its answer.
impl Model for Listed {
    ghost use Rattle.ct_detect.specs.Listed.{ListedState};

    ghost Value = { ListedState };

    ghost view = { λ detector. record { suspected = detector.suspected; last = detector.last } };
}

impl Listed {
    /// A module that suspects these members, and wasn't asked yet.
    pub fn new(suspected: MemberSet) -> Listed
        ensures { result ≡ record { suspected = suspected; last = None } }
    {
        Listed {
            suspected,
            last: None,
        }
    }
}

impl Detector for Listed {
    ghost last = { λ detector. detector.last };

    /// Whether the coordinator is in the set.
    fn suspects(&mut self, ask: Ask) -> bool
        ensures answer { result ≡ has_member self.old.suspected ask.coordinator }
        ensures state { self.new ≡ record self.old { last = Some (ask, result) } }
    {
        let answer = self.suspected.contains(ask.coordinator);
        self.last = Some((ask, answer));
        answer
    }

    fn last(&self) -> Option<(Ask, bool)> {
        self.last
    }
}
