//! What is told of trials on a terminal.

use crate::terminal::Terminal;
use ct_shrink::Progress;
use std::fmt;

// Tells how far a run was made smaller.
#[derive(Drop)]
pub(crate) struct Trials<'a> {
    terminal: Terminal<'a>,
    // Whether it is the only run, so that a bound on the trials comes to what was reached.
    is_only: bool,
}

impl<'a> Trials<'a> {
    pub(crate) fn new(rt: &'a HostRuntime, quiet: bool, is_only: bool) -> Trials<'a> {
        Trials {
            terminal: Terminal::new(rt, quiet),
            is_only,
        }
    }

    // Takes the line away.
    pub(crate) fn clear(&self) {
        self.terminal.clear();
    }
}

impl Progress for Trials<'_> {
    fn tried(&mut self, trials: u32, steps: usize) {
        if let Some(seconds) = self.terminal.due() {
            let is_only = self.is_only;
            self.terminal.write(
                seconds,
                Left {
                    trials,
                    steps,
                    is_only,
                },
            );
        }
    }
}

// How many steps are left after so many trials, and how to have them where it is ended here.
#[derive(Clone, Copy, Drop)]
struct Left {
    trials: u32,
    steps: usize,
    is_only: bool,
}

impl fmt::Display for Left {
    fn fmt<W: fmt::Write>(&self, f: &mut fmt::Formatter<W>) -> fmt::Result {
        let trials = self.trials;
        write!(f, "{trials} trials, {} steps left", self.steps)?;
        if self.is_only {
            write!(f, "; --tries {trials} writes these")?;
        }
        Ok(())
    }
}
