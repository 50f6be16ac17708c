//! What is told of logs.

use crate::act::Act;
use crate::clash::Clash;
use crate::finding::Finding;
use crate::place::{Delivery, Place};
use crate::reading::{Judged, LogEnd};
use crate::report::{Report, act_text, name_of, push_json, push_place};
use crate::stop::{Conflict, Unread};
use crate::wrong::Wrong;
use std::alloc::{AllocError, Global};

// A line that contradicts one before it.
pub(crate) fn conflict_report(
    alloc: Global,
    names: &[&str],
    conflict: &Conflict,
) -> Result<Report, AllocError> {
    let mut why = String::new(alloc);
    let verb = if matches!(conflict.act, Act::Deliver) {
        write!(why, "position {}: ", conflict.at.saturating_add(1))?;
        "delivered"
    } else {
        write!(why, "behind {} deliveries: ", conflict.at)?;
        "has"
    };
    let other = match &conflict.clash {
        Clash::Other(told) => {
            push_place(&mut why, names, told.place)?;
            write!(why, " {verb} {}", told.word.as_str())?;
            Some(told.place)
        }
        Clash::Again(delivery) => {
            push_place(&mut why, names, delivery.place)?;
            write!(
                why,
                " delivered it at position {}",
                delivery.at.saturating_add(1)
            )?;
            Some(delivery.place)
        }
        Clash::Back => {
            why.push_str("a snapshot has no fewer")?;
            None
        }
    };
    Ok(Report {
        place: conflict.place,
        text: act_text(alloc, conflict.act, conflict.word.as_str())?,
        why,
        other,
    })
}

// A line that stands in no log.
pub(crate) fn unread_report(alloc: Global, unread: &Unread) -> Result<Report, AllocError> {
    let why = unread.why;
    Ok(Report {
        place: unread.place,
        text: String::from_str(alloc, unread.text.as_str())?,
        why: format!(in alloc; "expected {why}")?,
        other: None,
    })
}

// A line that delivers what no log broadcasts.
pub(crate) fn unsent_report(
    alloc: Global,
    names: &[&str],
    judged: &Judged,
    delivery: Delivery,
) -> Result<Report, AllocError> {
    let mut why = String::from_str(alloc, "no log broadcasts it, and ")?;
    match judged.ends.iter().position(|end| !end.standing.is_whole) {
        None => why.push_str("all are whole")?,
        Some(log) => match names.get(log) {
            Some(name) => write!(why, "{name} has no end")?,
            None => why.push_str("one has no end")?,
        },
    }
    let word = match judged.table.order.get(&delivery.at) {
        Some(told) => told.word.as_str(),
        None => "",
    };
    Ok(Report {
        place: delivery.place,
        text: act_text(alloc, Act::Deliver, word)?,
        why,
        other: None,
    })
}

// Of each other log the first line that delivers what no log broadcasts, where these are asked for.
pub(crate) fn others_unsent(
    alloc: Global,
    names: &[&str],
    all: bool,
    wrong: Wrong,
    judged: &Judged,
    first: Delivery,
) -> Result<Vec<Finding>, AllocError> {
    let mut findings = Vec::new(alloc);
    if !all {
        return Ok(findings);
    }
    let mut is_told = vec![in alloc; false; names.len()]?;
    tell(&mut is_told, first.place.log);
    for (at, told) in &judged.table.order {
        let place = told.place;
        if judged.table.sent.get(told.word.as_str()).is_none() && tell(&mut is_told, place.log) {
            let at = *at;
            let report = unsent_report(alloc, names, judged, Delivery { at, place })?;
            findings.push(Finding { wrong, report })?;
        }
    }
    Ok(findings)
}

// Whether nothing is told yet of this log.
fn tell(is_told: &mut [bool], log: u32) -> bool {
    match is_told.get_mut(log as usize) {
        Some(is_told) if !*is_told => {
            *is_told = true;
            true
        }
        _ => false,
    }
}

// How many deliveries the furthest process has, or the furthest that did not crash.
pub(crate) fn furthest(ends: &[LogEnd], is_up: bool) -> u64 {
    let mut most = 0u64;
    for end in ends {
        if !is_up || !end.standing.is_down {
            most = most.max(end.standing.at);
        }
    }
    most
}

/// What is told of logs that are accepted.
pub fn accepted_text(alloc: Global, names: &[&str], judged: &Judged) -> Result<String, AllocError> {
    let mut text = String::new(alloc);
    let mut notes = String::new(alloc);
    let most = furthest(&judged.ends, false);
    let logs = if names.len() == 1 { "log" } else { "logs" };
    let deliveries = if most == 1 { "delivery" } else { "deliveries" };
    write!(
        text,
        "accepted: {} {logs}, {most} {deliveries}",
        names.len()
    )?;
    let mut log = 0u32;
    for end in &judged.ends {
        let name = name_of(names, log);
        let behind = most.saturating_sub(end.standing.at);
        if behind > 0 {
            write!(text, "; {name} is {behind} behind")?;
        }
        if end.standing.is_down {
            write!(text, "; {name} crashed")?;
        }
        if end.is_torn {
            let line = end.standing.count.saturating_add(1);
            notes.push_str("note: ")?;
            push_place(&mut notes, names, Place { log, line })?;
            notes.push_str(": no line feed ends it, so it is left out\n")?;
        }
        log = log.saturating_add(1);
    }
    text.push_str("\n")?;
    text.push_str(notes.as_str())?;
    Ok(text)
}

// The same as an object of JSON.
pub(crate) fn accepted_json(
    alloc: Global,
    names: &[&str],
    judged: &Judged,
) -> Result<String, AllocError> {
    let mut text = String::new(alloc);
    let most = furthest(&judged.ends, false);
    write!(
        text,
        "{{\"verdict\":\"accepted\",\"deliveries\":{most},\"logs\":["
    )?;
    let mut log = 0u32;
    for end in &judged.ends {
        if log > 0 {
            text.push_str(",")?;
        }
        text.push_str("{\"file\":")?;
        push_json(&mut text, name_of(names, log))?;
        let LogEnd { standing, is_torn } = *end;
        write!(
            text,
            ",\"lines\":{},\"deliveries\":{},\"crashed\":{},\"whole\":{},\"torn\":{}}}",
            standing.count, standing.at, standing.is_down, standing.is_whole, is_torn
        )?;
        log = log.saturating_add(1);
    }
    text.push_str("]}\n")?;
    Ok(text)
}
