//! Lines at which logs stand, besides the one that is told first.

use crate::culprit::push_reason;
use crate::sources::Sources;
use ct_merge::{Culprit, OwnFault, Stand, StoppedLine, StoppedLines, Why};
use ct_names::{Limit, MAX_MEMBERS, Member, Refusal};
use ct_play::LineFault;
use ct_world::World;
use std::alloc::{AllocError, Global};

// Puts behind the text, which tells the culprit, a line for each other one at which a log stands: those that stand for themselves, circles
// round, and those that wait for other logs. Where a limit of all logs is met, none.
pub(crate) fn push_others(
    alloc: Global,
    text: &mut String,
    sources: Sources<'_>,
    culprit: &Culprit,
    stopped: &StoppedLines,
) -> Result<(), AllocError> {
    if is_of_all(&culprit.why) {
        return Ok(());
    }
    push_refused(alloc, text, sources, culprit.member, stopped)?;
    push_own(alloc, text, sources, culprit.member, stopped)?;
    push_circles(text, sources, culprit, &stopped.waiting)?;
    push_waits(text, sources, &stopped.waiting)
}

// Whether a limit of all the logs together is in the way of the line.
fn is_of_all(why: &Why) -> bool {
    match why {
        Why::Fault(OwnFault::Line(LineFault::Refused(_, Refusal::Full(limit)))) => {
            matches!(limit, Limit::Envelopes | Limit::Cells | Limit::Steps)
        }
        _ => false,
    }
}

// The lines that are refused by themselves, but that of this member.
fn push_refused(
    alloc: Global,
    text: &mut String,
    sources: Sources<'_>,
    told: Member,
    stopped: &StoppedLines,
) -> Result<(), AllocError> {
    for culprit in &stopped.refused {
        let Culprit {
            member,
            place,
            why,
            ..
        } = culprit;
        if *member != told {
            push_also(alloc, text, sources, *member, *place, why, &stopped.run)?;
        }
    }
    Ok(())
}

// The other lines that stand for a reason of their own, but that of this member.
fn push_own(
    alloc: Global,
    text: &mut String,
    sources: Sources<'_>,
    told: Member,
    stopped: &StoppedLines,
) -> Result<(), AllocError> {
    for line in &stopped.waiting {
        if let Stand::Own(why) = &line.stand {
            if line.member != told {
                push_also(
                    alloc,
                    text,
                    sources,
                    line.member,
                    line.place,
                    why,
                    &stopped.run,
                )?;
            }
        }
    }
    Ok(())
}

fn push_also(
    alloc: Global,
    text: &mut String,
    sources: Sources<'_>,
    member: Member,
    place: usize,
    why: &Why,
    run: &World,
) -> Result<(), AllocError> {
    text.push_str(word_of(why))?;
    push_reason(alloc, text, sources, member, place, why, run)
}

// What stands before a line that stands for this reason.
fn word_of(why: &Why) -> &'static str {
    match why {
        Why::Ended(_) => "\nalso incomplete: ",
        _ if why.is_limit() => "\nalso limit: ",
        _ => "\nalso refused: ",
    }
}

// The circles, each round from a line on: the culprit, if it is one of them.
fn push_circles(
    text: &mut String,
    sources: Sources<'_>,
    culprit: &Culprit,
    waiting: &[StoppedLine],
) -> Result<(), AllocError> {
    if matches!(&culprit.why, Why::Circle) {
        push_round(text, sources, waiting, culprit.member)?;
    }
    for line in waiting {
        if is_least(waiting, line.member) && !is_round(waiting, line.member, culprit.member) {
            text.push_str("\nalso refused: ")?;
            sources.push(text, line.member, line.place)?;
            text.push_str("it waits for a line that waits for it")?;
            push_round(text, sources, waiting, line.member)?;
        }
    }
    Ok(())
}

// The lines of the circle, from the member's on.
fn push_round(
    text: &mut String,
    sources: Sources<'_>,
    waiting: &[StoppedLine],
    member: Member,
) -> Result<(), AllocError> {
    let mut at = member;
    for _ in 0..MAX_MEMBERS {
        let Some(line) = line_of(waiting, at) else {
            return Ok(());
        };
        push_wait(text, sources, "circle", line)?;
        at = next_of(waiting, at).unwrap_or(member);
        if at == member {
            return Ok(());
        }
    }
    Ok(())
}

// The lines that wait for other logs and are in no circle.
fn push_waits(
    text: &mut String,
    sources: Sources<'_>,
    waiting: &[StoppedLine],
) -> Result<(), AllocError> {
    for line in waiting {
        if !is_round(waiting, line.member, line.member) {
            push_wait(text, sources, "waits", line)?;
        }
    }
    Ok(())
}

// The line, if it waits for another log, and the line there that would send what it receives.
fn push_wait(
    text: &mut String,
    sources: Sources<'_>,
    word: &str,
    line: &StoppedLine,
) -> Result<(), AllocError> {
    let Stand::For(other) = &line.stand else {
        return Ok(());
    };
    write!(text, "\n{word}: ")?;
    sources.push(text, line.member, line.place)?;
    match line.sender {
        Some(place) => {
            text.push_str("it waits for ")?;
            sources.push_last(text, *other, place)
        }
        None => {
            let name = sources.name(*other);
            write!(text, "no line of {name} sends it")
        }
    }
}

// The line at which the member's log stands.
fn line_of(waiting: &[StoppedLine], member: Member) -> Option<&StoppedLine> {
    waiting.iter().find(|line| line.member == member)
}

// For whose log the member's waits.
fn next_of(waiting: &[StoppedLine], member: Member) -> Option<Member> {
    match &line_of(waiting, member)?.stand {
        Stand::For(other) => Some(*other),
        Stand::Own(_) => None,
    }
}

// Whether the other member's line is in a circle with the member's, or is the same in one.
fn is_round(waiting: &[StoppedLine], member: Member, other: Member) -> bool {
    is_led(waiting, member, other) && is_led(waiting, other, member)
}

// Whether waits lead from the member's log to the other's.
fn is_led(waiting: &[StoppedLine], member: Member, other: Member) -> bool {
    let mut at = member;
    for _ in 0..MAX_MEMBERS {
        match next_of(waiting, at) {
            Some(next) if next == other => return true,
            Some(next) => at = next,
            None => return false,
        }
    }
    false
}

// Whether the member's line is in a circle, and the first of it.
fn is_least(waiting: &[StoppedLine], member: Member) -> bool {
    if !is_led(waiting, member, member) {
        return false;
    }
    for other in 1..member {
        if is_round(waiting, member, other) {
            return false;
        }
    }
    true
}
