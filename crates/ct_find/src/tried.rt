//! How far a search came.

ghost use Rattle.std.specs.Prelude.{◌≡◌, Some};
ghost use Rattle.ct_walk.specs.Finding.{seeds_to};
ghost use Rattle.ct_find.specs.Texts.{time_text, tried_text};

use ct_walk::Seeds;
use std::fmt;

const MINUTE: u64 = 60;

const HOUR: u64 = 3600;

const DAY: u64 = 86400;

/// How far a search came. Its text is a line for a terminal.
#[derive(Clone, Copy, Debug, Drop)]
pub struct Tried {
    tried: u64,
    all: u64,
    // In a second.
    rate: u64,
    // In seconds.
    left: u64,
    last: u32,
}

impl Tried {
    ghost use Rattle.ct_find.specs.Tried.{tried_by};

    /// How far a search of these seeds came in so many seconds, where this seed was tried last.
    pub fn new(seeds: Seeds, last: u32, seconds: u64) -> Tried
        ensures { result ≡ tried_by seeds last seconds }
    {
        let tried = count(seeds.first, last);
        let all = count(seeds.first, seeds.last);
        let rate = tried / seconds.max(1);
        let left = all.saturating_sub(tried) / rate.max(1);
        Tried {
            tried,
            all,
            rate,
            left,
            last,
        }
    }
}

impl fmt::Display for Tried {
    ghost output = { λ tried. Some (tried_text tried) };

    fn fmt<W: fmt::Write>(&self, f: &mut fmt::Formatter<W>) -> fmt::Result {
        write!(
            f,
            "{} of {} seeds up to {}, {}/s, {} left",
            self.tried,
            self.all,
            self.last,
            self.rate,
            Seconds(self.left)
        )
    }
}

// A time, in the largest unit of which it has two at least.
#[derive(Clone, Copy, Drop)]
struct Seconds(u64);

impl fmt::Display for Seconds {
    ghost output = { λ seconds. Some (time_text seconds.0) };

    fn fmt<W: fmt::Write>(&self, f: &mut fmt::Formatter<W>) -> fmt::Result {
        let seconds = self.0;
        if seconds < 2 * MINUTE {
            write!(f, "{seconds} s")
        } else if seconds < 2 * HOUR {
            write!(f, "{} min", seconds / MINUTE)
        } else if seconds < 2 * DAY {
            write!(f, "{} h", seconds / HOUR)
        } else {
            write!(f, "{} days", seconds / DAY)
        }
    }
}

// How many seeds there are from the first to the last one.
pub(crate) fn count(first: u32, last: u32) -> u64
    ensures { result ≡ seeds_to first last }
{
    (u64::from(last) + 1).saturating_sub(u64::from(first))
}
