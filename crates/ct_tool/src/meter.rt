//! What is told of a search on a terminal.

use crate::terminal::Terminal;
use ct_find::{Progress, Tried};
use ct_walk::Seeds;
use std::fmt;

// Tells how far a search came.
#[derive(Drop)]
pub(crate) struct Meter<'a> {
    terminal: Terminal<'a>,
    seeds: Seeds,
    // How many milliseconds went by before the last block ended.
    millis: u64,
}

impl<'a> Meter<'a> {
    pub(crate) fn new(rt: &'a HostRuntime, seeds: Seeds, quiet: bool) -> Meter<'a> {
        Meter {
            terminal: Terminal::new(rt, quiet),
            seeds,
            millis: 0,
        }
    }

    // Takes the line away.
    pub(crate) fn clear(&self) {
        self.terminal.clear();
    }
}

impl Progress for Meter<'_> {
    fn tell(&mut self, last: u32, shown: usize) -> Option<u64> {
        let millis = self.terminal.millis()?;
        if let Some(seconds) = self.terminal.due() {
            let tried = Tried::new(self.seeds, last, seconds);
            self.terminal.write(seconds, Told { tried, shown });
        }
        let took = millis.saturating_sub(self.millis);
        self.millis = millis;
        Some(took)
    }
}

// How far a search came, and how many seeds show what is looked for, where some do.
#[derive(Clone, Copy, Drop)]
struct Told {
    tried: Tried,
    shown: usize,
}

impl fmt::Display for Told {
    fn fmt<W: fmt::Write>(&self, f: &mut fmt::Formatter<W>) -> fmt::Result {
        if self.shown == 0 {
            return write!(f, "{}", self.tried);
        }
        write!(f, "{}; {} show it", self.tried, self.shown)
    }
}
