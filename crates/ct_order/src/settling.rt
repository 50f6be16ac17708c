//! Messages that processes lack, and messages that others overtake.

use crate::act::Act;
use crate::finding::Finding;
use crate::place::Place;
use crate::reading::{Judged, LogEnd};
use crate::report::{Report, act_text, push_place};
use crate::table::Table;
use crate::telling::furthest;
use crate::wrong::Wrong;
use std::alloc::{AllocError, Global};

/// A message that a process broadcast.
#[derive(Clone, Copy, Drop, PartialEq, Eq, PartialOrd, Ord)]
struct Sent {
    place: Place,
    // How many deliveries stand before it, where it is delivered.
    at: Option<u64>,
}

// What processes that did not crash lack of what one of them delivered, or broadcast; the first of these, or the first of each.
pub(crate) fn lacking(
    alloc: Global,
    names: &[&str],
    judged: &Judged,
    all: bool,
    findings: &mut Vec<Finding>,
) -> Result<(), AllocError> {
    let wrong = Wrong::Unsettled;
    let far = furthest(&judged.ends, true);
    let mut log = 0u32;
    let mut is_behind = false;
    for end in &judged.ends {
        if !end.standing.is_down && end.standing.at < far && (all || !is_behind) {
            is_behind = true;
            let report = behind_report(alloc, names, judged, log, *end)?;
            findings.push(Finding { wrong, report })?;
        }
        log = log.saturating_add(1);
    }
    if !is_behind && let Some(report) = undelivered(alloc, judged, far)? {
        findings.push(Finding { wrong, report })?;
    }
    Ok(())
}

// The log ends before a message that another process delivered.
fn behind_report(
    alloc: Global,
    names: &[&str],
    judged: &Judged,
    log: u32,
    end: LogEnd,
) -> Result<Report, AllocError> {
    let at = end.standing.at;
    let mut why = String::new(alloc);
    write!(why, "position {} is missing", at.saturating_add(1))?;
    let mut other = None;
    if let Some(told) = judged.table.order.get(&at) {
        write!(why, ": {}, delivered in ", told.word.as_str())?;
        push_place(&mut why, names, told.place)?;
        other = Some(told.place);
    }
    let line = end.standing.count;
    Ok(Report {
        place: Place { log, line },
        text: String::new(alloc),
        why,
        other,
    })
}

// A message of a process that did not crash, which none of those delivered; none where something isn't told of what they delivered.
fn undelivered(alloc: Global, judged: &Judged, far: u64) -> Result<Option<Report>, AllocError> {
    if first_gap(&judged.table) < far {
        return Ok(None);
    }
    for next in &sent_in(alloc, &judged.table)? {
        let is_missing = !matches!(next.at, Some(at) if at < far);
        let end = judged.ends.get(next.place.log as usize);
        if is_missing && end.is_some_and(|end| !end.standing.is_down) {
            return Ok(Some(Report {
                place: next.place,
                text: String::new(alloc),
                why: String::from_str(alloc, "no process that did not crash delivered it")?,
                other: None,
            }));
        }
    }
    Ok(None)
}

// The first position of which no message is told.
fn first_gap(table: &Table) -> u64 {
    let mut gap = 0u64;
    for turn in 0..u64::MAX {
        gap = turn;
        if table.order.get(&turn).is_none() {
            break;
        }
    }
    gap
}

// All that is broadcast, in the order of the logs and their lines.
fn sent_in(alloc: Global, table: &Table) -> Result<Vec<Sent>, AllocError> {
    let mut sent = Vec::new(alloc);
    for (word, place) in &table.sent {
        let at = table.placed.get(word.as_str()).map(|delivery| delivery.at);
        sent.push(Sent { place: *place, at })?;
    }
    sent.sort_unstable();
    Ok(sent)
}

// Messages that are delivered before another that their process broadcast before; the first of these, or the first of each.
pub(crate) fn overtaking(
    alloc: Global,
    names: &[&str],
    judged: &Judged,
    all: bool,
    findings: &mut Vec<Finding>,
) -> Result<(), AllocError> {
    let gap = first_gap(&judged.table);
    let mut process = Process::new(u32::MAX);
    for next in &sent_in(alloc, &judged.table)? {
        if next.place.log != process.log {
            process = Process::new(next.place.log);
        }
        if let Some((at, before)) = process.overtaken(*next, gap)
            && (all || findings.is_empty())
            && let Some(report) = overtaking_report(alloc, names, judged, at, before)?
        {
            let wrong = Wrong::Overtaken;
            findings.push(Finding { wrong, report })?;
        }
    }
    Ok(())
}

/// What a process broadcast, up to some line.
#[derive(Clone, Copy, Drop)]
struct Process {
    log: u32,
    // The last one that is delivered, and the first that is not.
    last: Option<Sent>,
    lost: Option<Sent>,
    is_told: bool,
}

impl Process {
    fn new(log: u32) -> Process {
        Process {
            log,
            last: None,
            lost: None,
            is_told: false,
        }
    }

    // Where the next one overtakes another that was broadcast before it: where it is delivered, and the other; once.
    fn overtaken(&mut self, next: Sent, gap: u64) -> Option<(u64, Place)> {
        let Some(at) = next.at else {
            self.lost = self.lost.or(Some(next));
            return None;
        };
        let (last, lost) = (self.last, self.lost);
        let before = match last {
            Some(last) if last.at > Some(at) => Some(last),
            _ if at <= gap => lost,
            _ => None,
        };
        self.last = Some(next);
        if self.is_told {
            return None;
        }
        let before = before?;
        self.is_told = true;
        Some((at, before.place))
    }
}

fn overtaking_report(
    alloc: Global,
    names: &[&str],
    judged: &Judged,
    at: u64,
    before: Place,
) -> Result<Option<Report>, AllocError> {
    let Some(told) = judged.table.order.get(&at) else {
        return Ok(None);
    };
    let mut why = String::from_str(alloc, "its process broadcast another before it (")?;
    push_place(&mut why, names, before)?;
    why.push_str("), which is not delivered before it")?;
    Ok(Some(Report {
        place: told.place,
        text: act_text(alloc, Act::Deliver, told.word.as_str())?,
        why,
        other: Some(before),
    }))
}
