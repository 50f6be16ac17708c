//! From what logs say to a schedule.

ghost use Rattle.std.specs.Prelude.{IfErr};
ghost use Rattle.ct_enact.specs.Faults.{IsOfScheme};

use crate::enact_fault::{EnactFault, limit};
use crate::group::Cast;
use ct_order::{Judged, Place, Table, accepted_text};
use std::alloc::{AllocError, Global};

// How many messages at most are submitted before turns, which come to rest in so many rounds as a schedule may have.
const TOGETHER: u64 = 16;

/// A message, and the log that broadcasts it.
#[derive(Clone, Copy, Drop)]
struct Sent<'a> {
    log: u32,
    word: &'a str,
}

/// The line that broadcasts a message that no log delivers.
#[derive(Clone, Copy, Drop, PartialEq, Eq, PartialOrd, Ord)]
struct Left<'a> {
    place: Place,
    word: &'a str,
}

// A schedule that submits the messages in the order in which the logs deliver them, each at the member of the log that broadcasts it,
// and gives turns to those that deliver it; those that no log delivers come last, and then the crashes.
pub(crate) fn scheme_text(
    alloc: Global,
    names: &[&str],
    judged: &Judged,
) -> Result<String, EnactFault>
    ensures { IfErr result IsOfScheme }
{
    let cast = Cast::new(alloc, &judged.ends)?;
    let mut text = heading(alloc, names, judged, cast)?;
    for at in 0..cast.most {
        match sent_at(&judged.table, at) {
            Some(sent) => push_delivery(&mut text, judged, cast, at, sent)?,
            None => return Err(gap(alloc, at)),
        }
    }
    push_rest(alloc, &mut text, judged, cast)?;
    Ok(text)
}

// No log tells of the position behind so many messages.
fn gap(alloc: Global, at: u64) -> EnactFault
    ensures { IsOfScheme result }
{
    let position = at.saturating_add(1);
    limit(format!(in alloc; "position {position}: no log tells what is delivered there"))
}

// What the logs come to, as comments, and the numbers of the group.
fn heading(
    alloc: Global,
    names: &[&str],
    judged: &Judged,
    cast: Cast<'_>,
) -> Result<String, AllocError> {
    let mut text = String::new(alloc);
    for line in accepted_text(alloc, names, judged)?.lines() {
        write!(text, "# {line}\n")?;
    }
    write!(text, "members {}\ncells {}\n", cast.members, cast.most)?;
    Ok(text)
}

// The message behind so many others.
fn sent_at(table: &Table, at: u64) -> Option<Sent<'_>> {
    let told = table.order.get(&at)?;
    let place = table.sent.get(told.word.as_str())?;
    Some(Sent {
        log: place.log,
        word: told.word.as_str(),
    })
}

// Submits the message behind so many others. Turns follow, unless the same members deliver the next, whose origin is no lesser one:
// such messages stand in this order in a batch, too.
fn push_delivery(
    text: &mut String,
    judged: &Judged,
    cast: Cast<'_>,
    at: u64,
    sent: Sent<'_>,
) -> Result<(), AllocError> {
    let next = at.saturating_add(1);
    push_submit(text, sent, next)?;
    let is_rising = sent_at(&judged.table, next).is_some_and(|then| then.log >= sent.log);
    if !is_rising || next % TOGETHER == 0 || cast.has_end(next) {
        cast.push(text, "", at, true)?;
        text.push_str(" settle")?;
        cast.push(text, " suspecting ", at, false)?;
        text.push_str("\n")?;
    }
    Ok(())
}

// Submits the message, as the value that is its place among all, counted from 1.
fn push_submit(text: &mut String, sent: Sent<'_>, value: u64) -> Result<(), AllocError> {
    let Sent { log, word } = sent;
    let member = log.saturating_add(1);
    write!(text, "{member} submit set 0 {value} # {word}\n")
}

// Submits the messages that no log delivers, and crashes the members whose processes did.
fn push_rest(
    alloc: Global,
    text: &mut String,
    judged: &Judged,
    cast: Cast<'_>,
) -> Result<(), AllocError> {
    let mut value = cast.most;
    for left in &left_in(alloc, &judged.table)? {
        value = value.saturating_add(1);
        let Left { place, word } = *left;
        let log = place.log;
        push_submit(text, Sent { log, word }, value)?;
    }
    let mut member = 0u32;
    for end in cast.ends {
        member = member.saturating_add(1);
        if end.standing.is_down {
            write!(text, "crash {member}\n")?;
        }
    }
    Ok(())
}

// The messages that no log delivers, in the order of the logs and their lines.
fn left_in(alloc: Global, table: &Table) -> Result<Vec<Left<'_>>, AllocError> {
    let mut left = Vec::new(alloc);
    for (word, place) in &table.sent {
        if table.placed.get(word.as_str()).is_none() {
            left.push(Left {
                place: *place,
                word: word.as_str(),
            })?;
        }
    }
    left.sort_unstable();
    Ok(left)
}
