//! Lines that receive what their senders' logs didn't send.

use crate::culprit::push_line_why;
use crate::sent::sent_at;
use crate::sources::Sources;
use ct_grammar::{Carried, Statement};
use ct_merge::{FullName, LogAct, OwnFault, Why};
use ct_names::Member;
use ct_print::push_statement;
use ct_world::World;
use std::alloc::{AllocError, Global};

// A line that receives an envelope: its place in the member's log, the envelope's name, and what is stated of it.
#[derive(Clone, Copy)]
pub(crate) struct Receipt<'a> {
    member: Member,
    place: usize,
    name: FullName,
    said: Option<&'a Statement>,
}

impl<'a> Receipt<'a> {
    // The line at this place of the member's log, if it receives an envelope.
    pub(crate) fn at(sources: Sources<'a>, member: Member, place: usize) -> Option<Receipt<'a>> {
        let line = sources.set.line(member, place)?;
        let LogAct::Receive(name) = line.act else {
            return None;
        };
        Some(Receipt {
            member,
            place,
            name,
            said: line.said.as_ref(),
        })
    }

    // Where the sender's line stands that sent this, by the run.
    fn sent_at(
        &self,
        alloc: Global,
        world: &World,
        carried: Carried,
    ) -> Result<Option<usize>, AllocError> {
        let from = self.name.from;
        sent_at(alloc, world, self.member, FullName { carried, from })
    }
}

// The line, and why it is not taken. Where it states something else than was sent, the sender's line is told, and this one behind that;
// where the sender sent the other reply to the round, that and its line.
pub(crate) fn push_receipt(
    alloc: Global,
    text: &mut String,
    sources: Sources<'_>,
    receipt: Receipt<'_>,
    why: &Why,
    world: &World,
) -> Result<(), AllocError> {
    if let Why::Fault(OwnFault::CameTo(_, came)) = why {
        if let Some(place) = receipt.sent_at(alloc, world, receipt.name.carried)? {
            return push_sender(text, sources, receipt, place, came.as_str());
        }
    }
    push_line_why(text, sources, receipt.member, receipt.place, why)?;
    match (why, other_reply(receipt.name.carried)) {
        (Why::Never(_), Some(other)) => push_instead(alloc, text, sources, receipt, other, world),
        _ => Ok(()),
    }
}

// The sender's line, at this place of its log, and what the receiver states of what it sent.
fn push_sender(
    text: &mut String,
    sources: Sources<'_>,
    receipt: Receipt<'_>,
    place: usize,
    came: &str,
) -> Result<(), AllocError> {
    let Receipt { member, said, .. } = receipt;
    let file = sources.name(member);
    let number = sources.number(member, receipt.place);
    sources.push(text, receipt.name.from, place)?;
    write!(text, "member {member} received ")?;
    if let Some(said) = said {
        push_statement(text, said)?;
    }
    write!(
        text,
        " ({file} line {number}), and by this line it is {came}"
    )
}

// The other reply and the sender's line that sent it, if one did.
fn push_instead(
    alloc: Global,
    text: &mut String,
    sources: Sources<'_>,
    receipt: Receipt<'_>,
    other: Carried,
    world: &World,
) -> Result<(), AllocError> {
    let Some(place) = receipt.sent_at(alloc, world, other)? else {
        return Ok(());
    };
    let file = sources.name(receipt.name.from);
    let number = sources.number(receipt.name.from, place);
    text.push_str(": it sent ")?;
    push_reply(text, other)?;
    write!(text, " instead ({file} line {number})")
}

// The other reply to the same round.
fn other_reply(carried: Carried) -> Option<Carried> {
    match carried {
        Carried::Ack(instance, round) => Some(Carried::Nack(instance, round)),
        Carried::Nack(instance, round) => Some(Carried::Ack(instance, round)),
        _ => None,
    }
}

fn push_reply(text: &mut String, carried: Carried) -> Result<(), AllocError> {
    match carried {
        Carried::Ack(instance, round) => write!(text, "ack {instance}/{round}"),
        Carried::Nack(instance, round) => write!(text, "nack {instance}/{round}"),
        _ => Ok(()),
    }
}
