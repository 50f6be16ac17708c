//! A module that suspects by random words.

ghost use Rattle.std.specs.Prelude.{◌≡◌, ◌%◌, ◌<◌, ◌≤◌, ◌↔◌, None, Some, IsTrue};
ghost use Rattle.ct_detect.specs.Seeded.{words_of_seed, next_word, after_word};

use crate::ask::Ask;
use crate::detector::Detector;
use rand_core::SeedableRng;
use rand_core::utils::NextWord;
use rand_pcg::Pcg32;
use std::marker::Model;

/// It draws one word from its generator at each call, and suspects whoever is asked about where the word is small enough.
#[derive(Debug, Drop)]
pub struct Seeded {
    words: Pcg32,
    rate: u16,
    last: Option<(Ask, bool)>,
}

// Contracts see the generator's state, the rate, and the last ask with its answer.
impl Model for Seeded {
    ghost use Rattle.std.specs.Prelude.{◌≤◌};
    ghost use Rattle.ct_detect.specs.Seeded.{SeededState};

    ghost Value = { SeededState };

    ghost view = { λ detector. record { words = detector.words; rate = detector.rate; last = detector.last } };

    ghost invariant = { λ detector. detector.rate ≤ 256 };
}

impl Seeded {
    /// A module that wasn't asked yet, with the generator that `Pcg32::seed_from_u64` makes of the seed. The rate is how
    /// many calls of 256 suspect on average: none at 0, each at 256, which is the most.
    #[tactic(auto, unfolding(crate::specs::Seeded::words_of_seed))]
    pub fn new(seed: u64, rate: u16) -> Seeded
        requires { rate ≤ 256 }
        ensures { result ≡ record { words = words_of_seed seed; rate = rate; last = None } }
    {
        Seeded {
            words: Pcg32::seed_from_u64(seed),
            rate,
            last: None,
        }
    }
}

impl Detector for Seeded {
    ghost last = { λ detector. detector.last };

    /// Whether the generator's next 32-bit word, modulo 256, is below the rate.
    #[tactic(auto, unfolding(crate::specs::Seeded::next_word, crate::specs::Seeded::after_word))]
    fn suspects(&mut self, ask: Ask) -> bool
        ensures answer { IsTrue result ↔ (next_word self.old.words % 256 < self.old.rate) }
        ensures state { self.new ≡ record self.old { words = after_word self.old.words; last = Some (ask, result) } }
    {
        let word = self.words.next_word();
        let answer = word % 256 < u32::from(self.rate);
        self.last = Some((ask, answer));
        answer
    }

    fn last(&self) -> Option<(Ask, bool)> {
        self.last
    }
}
