//! Where logs stand.

ghost use Rattle.std.specs.Prelude.{◌≡◌};
ghost use Rattle.ct_order.specs.Lines.{after_act, may_follow_crash, next_number, reaching, start};

use crate::act::Act;
use crate::limits::{MAX_DELIVERIES, MAX_LINES};
use crate::no_line::NoLine;

/// Where a log stands behind some of its lines.
#[derive(Clone, Copy, Debug, Drop, PartialEq, Eq)]
pub struct Standing {
    /// How many lines are over.
    pub count: u32,
    /// How many deliveries its process has.
    pub at: u64,
    /// The most that it had.
    pub most: u64,
    /// The process crashed, and did not restart.
    pub is_down: bool,
    /// The log says that it is whole.
    pub is_whole: bool,
}

impl Standing {
    // Before the first line.
    pub(crate) fn new() -> Standing
        ensures { result ≡ start }
    {
        Standing {
            count: 0,
            at: 0,
            most: 0,
            is_down: false,
            is_whole: false,
        }
    }

    // Behind a line that says this.
    pub(crate) fn after(self, act: Act) -> Result<Standing, NoLine>
        ensures { result ≡ after_act self act }
    {
        if self.is_whole {
            return Err(NoLine::Whole);
        }
        if self.is_down && !may_follow_crash(act) {
            return Err(NoLine::Crashed);
        }
        match act {
            Act::Broadcast | Act::State => Ok(self),
            Act::Deliver if self.at < MAX_DELIVERIES => Ok(self.reaching(self.at + 1)),
            Act::Deliver => Err(NoLine::Full),
            Act::From(count) => Ok(self.reaching(u64::from(count))),
            Act::Restart(count) => Ok(Standing {
                is_down: false,
                ..self.reaching(u64::from(count))
            }),
            Act::Crash => Ok(Standing {
                is_down: true,
                ..self
            }),
            Act::End => Ok(Standing {
                is_whole: true,
                ..self
            }),
        }
    }

    // The number of the next line; of each behind the last that a log may have it is the same.
    pub(crate) fn next_number(self) -> u32
        ensures { result ≡ next_number self }
    {
        if self.count < MAX_LINES {
            self.count + 1
        } else {
            MAX_LINES + 1
        }
    }

    // With so many deliveries.
    fn reaching(self, at: u64) -> Standing
        ensures { result ≡ reaching self at }
    {
        let most = if self.most < at { at } else { self.most };
        Standing { at, most, ..self }
    }
}

// Whether the act may stand behind a crash.
fn may_follow_crash(act: Act) -> bool
    ensures { result ≡ may_follow_crash act }
{
    matches!(act, Act::Restart(_) | Act::End)
}
