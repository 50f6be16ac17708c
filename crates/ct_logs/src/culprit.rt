//! Lines at which logs stand.

use crate::others::push_others;
use crate::receipt::{Receipt, push_receipt};
use crate::sources::Sources;
use crate::torn::push_torn;
use ct_merge::{Culprit, StoppedLines, Why, push_why};
use ct_names::Member;
use ct_world::World;
use std::alloc::{AllocError, Global};

// What is told of the line: its file, its number, its text, and why it is not taken; then of the others at which logs stand, and of last
// lines that are torn.
pub(crate) fn told_of(
    alloc: Global,
    sources: Sources<'_>,
    culprit: &Culprit,
    stopped: Option<&StoppedLines>,
) -> Result<String, AllocError> {
    let mut text = String::new(alloc);
    push_told(alloc, &mut text, sources, culprit, stopped)?;
    Ok(text)
}

fn push_told(
    alloc: Global,
    text: &mut String,
    sources: Sources<'_>,
    culprit: &Culprit,
    stopped: Option<&StoppedLines>,
) -> Result<(), AllocError> {
    let Culprit {
        member,
        place,
        why,
        ..
    } = culprit;
    match stopped {
        Some(stopped) => {
            let run = &stopped.run;
            push_reason(alloc, text, sources, *member, *place, why, run)?;
            push_others(alloc, text, sources, culprit, stopped)?;
        }
        None => push_line_why(text, sources, *member, *place, why)?,
    }
    push_torn(text, sources.names, sources.texts)
}

// The same without the others; what was sent is looked up in the run.
pub(crate) fn told_alone(
    alloc: Global,
    sources: Sources<'_>,
    culprit: &Culprit,
    run: &World,
) -> Result<String, AllocError> {
    let mut text = String::new(alloc);
    push_alone(alloc, &mut text, sources, culprit, run)?;
    Ok(text)
}

fn push_alone(
    alloc: Global,
    text: &mut String,
    sources: Sources<'_>,
    culprit: &Culprit,
    run: &World,
) -> Result<(), AllocError> {
    let Culprit {
        member,
        place,
        why,
        ..
    } = culprit;
    push_reason(alloc, text, sources, *member, *place, why, run)?;
    push_torn(text, sources.names, sources.texts)
}

// The line at this place of the member's log, and why it is not taken. Of one that receives an envelope it is looked up in the run what
// its sender sent.
pub(crate) fn push_reason(
    alloc: Global,
    text: &mut String,
    sources: Sources<'_>,
    member: Member,
    place: usize,
    why: &Why,
    run: &World,
) -> Result<(), AllocError> {
    match Receipt::at(sources, member, place) {
        Some(receipt) => push_receipt(alloc, text, sources, receipt, why, run),
        None => push_line_why(text, sources, member, place, why),
    }
}

// The line, and why it is not taken as far as that needs no run.
pub(crate) fn push_line_why(
    text: &mut String,
    sources: Sources<'_>,
    member: Member,
    place: usize,
    why: &Why,
) -> Result<(), AllocError> {
    sources.push(text, member, place)?;
    match why {
        Why::Ended(from) if sources.set.file(*from).is_none() => {
            write!(text, "there is no log of member {from}")
        }
        _ => push_why(text, why),
    }
}
