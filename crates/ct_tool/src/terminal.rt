//! Lines on a terminal that are written over and over.

use std::env;
use std::fmt::Display;
use std::io::IsTerminal;
use std::time::Instant;

// How many columns a terminal has where the environment doesn't tell.
const USUAL_COLUMNS: usize = 80;

// A line on standard error that is written over and over, once a second at most; nothing where that is no terminal.
#[derive(Drop)]
pub(crate) struct Terminal<'a> {
    rt: &'a HostRuntime,
    // When it began, where something is told.
    began: Option<Instant>,
    // The second in which the line was written last, 0 before.
    told: u64,
    // How many letters the line has at most: in the last column it would go on in the next row.
    most: usize,
}

impl<'a> Terminal<'a> {
    pub(crate) fn new(rt: &'a HostRuntime, quiet: bool) -> Terminal<'a> {
        let began = if !quiet && rt.stderr().is_terminal() {
            Instant::now(rt).ok()
        } else {
            None
        };
        Terminal {
            rt,
            began,
            told: 0,
            most: columns(rt).saturating_sub(1),
        }
    }

    // How many milliseconds went by, where something is told.
    pub(crate) fn millis(&self) -> Option<u64> {
        let elapsed = self.began.as_ref()?.elapsed(self.rt).ok()?;
        let millis = elapsed.as_secs().saturating_mul(1000);
        Some(millis.saturating_add(u64::from(elapsed.subsec_millis())))
    }

    // How many seconds went by, where a line is due.
    pub(crate) fn due(&self) -> Option<u64> {
        let seconds = self.millis()? / 1000;
        if seconds == self.told {
            None
        } else {
            Some(seconds)
        }
    }

    // Writes the line of this second, as far as the terminal is wide.
    pub(crate) fn write<D: Display + Drop>(&mut self, seconds: u64, line: D) {
        self.told = seconds;
        if let Ok(text) = format!(in self.rt.alloc(); "{line}") {
            let shown = text.get(..self.most).unwrap_or(text.as_str());
            let _ = eprint!(self.rt; "\r{shown}\u{1b}[K");
        }
    }

    // Takes the line away.
    pub(crate) fn clear(&self) {
        if self.told > 0 {
            let _ = eprint!(self.rt; "\r\u{1b}[K");
        }
    }
}

// How many columns the terminal has, by the environment.
fn columns(rt: &HostRuntime) -> usize {
    match env::var(rt, "COLUMNS") {
        Ok(text) => text.parse().unwrap_or(USUAL_COLUMNS),
        Err(_) => USUAL_COLUMNS,
    }
}
