//! From the bytes of a log to what its lines say.

ghost use Rattle.std.specs.Prelude.{◌≡◌, ◌∷◌, []};
ghost use Rattle.ct_order.specs.Json.{event_in};
ghost use Rattle.ct_order.specs.Lines.{entry_of};
ghost use Rattle.ct_order.specs.Scanning.{after_line, beginning, told};
ghost use Rattle.ct_order.specs.Taking.{IsConflictOf, IsUnreadOf, Moves, MovesLine, said_in};

use crate::act::Act;
use crate::clash::Clash;
use crate::event::Event;
use crate::json::{event_of, value_in};
use crate::limits::{MAX_LINE, MAX_LINES};
use crate::line::Line;
use crate::no_line::NoLine;
use crate::place::Place;
use crate::plain::{text_in, trimmed};
use crate::standing::Standing;
use crate::stop::{Conflict, Stop, Unread};
use crate::table::Table;
use std::alloc::{AllocError, Global};
use std::marker::Model;

// How many characters are shown of a line that stands in no log.
const SHOWN: usize = 80;

/// A log of which some first bytes are read.
#[derive(Drop)]
pub(crate) struct Scan {
    standing: Standing,
    // The bytes of a line that no line feed ends yet.
    pending: Vec<u8>,
}

// Contracts see both.
impl Model for Scan {
    ghost use Rattle.ct_order.specs.Scanning.{Scanning};

    ghost Value = { Scanning };

    ghost view = { λ s. record { standing = s.standing; pending = s.pending.items } };
}

impl Scan {
    // Nothing is read of a log.
    pub(crate) fn new(alloc: Global) -> Scan
        ensures { result ≡ beginning }
    {
        Scan {
            standing: Standing::new(),
            pending: Vec::new(alloc),
        }
    }

    // Where the log stands.
    pub(crate) fn standing(&self) -> Standing
        ensures { result ≡ self.now.standing }
    {
        self.standing
    }

    // Whether the last line has no line feed.
    pub(crate) fn is_torn(&self) -> bool {
        !self.pending.is_empty()
    }

    // Takes what comes next of the log of this place among the logs. How it stands behind a fault is open.
    pub(crate) fn take(
        &mut self,
        alloc: Global,
        table: &mut Table,
        log: u32,
        bytes: &[u8],
    ) -> Result<(), Stop>
        ensures { Moves log self.old table.old bytes.now self.new table.new result }
    {
        for byte in bytes {
            match self.take_byte(alloc, table, log, *byte) {
                Ok(()) => {}
                Err(stop) => return Err(stop),
            }
        }
        Ok(())
    }

    // Takes the next byte of the log.
    fn take_byte(
        &mut self,
        alloc: Global,
        table: &mut Table,
        log: u32,
        byte: u8,
    ) -> Result<(), Stop>
        ensures { Moves log self.old table.old (byte ∷ []) self.new table.new result }
    {
        if byte == b'\n' {
            return self.end_line(alloc, table, log);
        }
        if self.pending.len() >= MAX_LINE {
            let line = self.standing.next_number();
            return Err(no_line(alloc, log, line, &self.pending, NoLine::Long));
        }
        match self.pending.push(byte) {
            Ok(()) => Ok(()),
            Err(_) => Err(Stop::Memory),
        }
    }

    // Takes the line that a line feed ends here.
    fn end_line(&mut self, alloc: Global, table: &mut Table, log: u32) -> Result<(), Stop>
        ensures { Moves log self.old table.old (10 ∷ []) self.new table.new result }
    {
        match take_line(alloc, table, log, &mut self.standing, &self.pending) {
            Ok(()) => {
                self.pending.clear();
                Ok(())
            }
            Err(stop) => Err(stop),
        }
    }
}

// Takes the next line of the log, which stands so.
fn take_line(
    alloc: Global,
    table: &mut Table,
    log: u32,
    standing: &mut Standing,
    line: &[u8],
) -> Result<(), Stop>
    ensures { MovesLine (after_line log standing.old line.now) table.old standing.new table.new result }
{
    if standing.count < MAX_LINES {
        standing.count += 1;
        take_counted(alloc, table, log, standing, line)
    } else {
        Err(no_line(alloc, log, MAX_LINES + 1, line, NoLine::Many))
    }
}

// Takes the line of the log at which it stands.
fn take_counted(
    alloc: Global,
    table: &mut Table,
    log: u32,
    standing: &mut Standing,
    line: &[u8],
) -> Result<(), Stop>
    ensures { MovesLine (told log standing.old (event_in line.now)) table.old standing.new table.new result }
{
    let text = trimmed(line);
    match value_in(alloc, text) {
        Ok(value) => {
            let done = take_event(alloc, table, log, standing, text, event_of(text, &value));
            drop(value);
            done
        }
        Err(_) => Err(Stop::Memory),
    }
}

// Takes what was read of the line at which the log stands, which has this text.
fn take_event(
    alloc: Global,
    table: &mut Table,
    log: u32,
    standing: &mut Standing,
    text: &[u8],
    event: Event<'_>,
) -> Result<(), Stop>
    ensures { MovesLine (told log standing.old (entry_of event.entry)) table.old standing.new table.new result }
{
    match event {
        Event::Blank => Ok(()),
        Event::Says(act, word) => take_said(alloc, table, log, standing, text, act, word),
        Event::No(why) => Err(no_line(alloc, log, standing.count, text, why)),
    }
}

// Takes what the line says at which the log stands.
fn take_said(
    alloc: Global,
    table: &mut Table,
    log: u32,
    standing: &mut Standing,
    text: &[u8],
    act: Act,
    word: &str,
) -> Result<(), Stop>
    ensures { MovesLine (said_in log standing.old act word.now) table.old standing.new table.new result }
{
    let count = standing.count;
    let at = standing.at;
    match standing.after(act) {
        Ok(next) => {
            let line = Line {
                place: Place { log, line: count },
                at,
                act,
                word,
            };
            match table.take(alloc, line) {
                Ok(None) => {
                    *standing = next;
                    Ok(())
                }
                Ok(Some(clash)) => Err(conflict(alloc, line, clash)),
                Err(_) => Err(Stop::Memory),
            }
        }
        Err(why) => Err(no_line(alloc, log, count, text, why)),
    }
}

// The line contradicts another.
fn conflict(alloc: Global, line: Line<'_>, clash: Clash) -> Stop
    ensures { IsConflictOf line.entry clash result }
{
    match String::from_str(alloc, line.word) {
        Ok(word) => Stop::Clash(Conflict {
            place: line.place,
            at: line.at,
            act: line.act,
            word,
            clash,
        }),
        Err(_) => {
            drop(clash);
            Stop::Memory
        }
    }
}

// The line of this text stands in no log.
fn no_line(alloc: Global, log: u32, line: u32, text: &[u8], why: NoLine) -> Stop
    ensures { IsUnreadOf line why result }
{
    match shown(alloc, text) {
        Ok(text) => {
            let place = Place { log, line };
            Stop::Line(Unread { place, text, why })
        }
        Err(_) => Stop::Memory,
    }
}

// The text of a line, as far as it is shown.
fn shown(alloc: Global, bytes: &[u8]) -> Result<String, AllocError> {
    let mut text = String::new(alloc);
    if let Some(line) = text_in(bytes) {
        for c in line.chars().take(SHOWN) {
            text.push(if c < ' ' { '?' } else { c })?;
        }
    }
    Ok(text)
}
