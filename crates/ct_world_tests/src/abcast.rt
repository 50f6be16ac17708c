use ct_abcast::Caster;
use ct_names::{Command, MAX_BOUND, Member, Message, MsgSet};
use std::alloc::{AllocError, Global};
use std::test::Fail;

// The message of that origin and number.
fn message(origin: Member, number: u32) -> Result<Message, &'static str> {
    Message::new(origin, number, Command::Set(0, 7)).ok_or("good")
}

fn receive_all(caster: &mut Caster, messages: &[Message]) -> Result<(), AllocError> {
    for message in messages {
        caster.prepare(1)?;
        caster.receive(*message);
    }
    Ok(())
}

fn deliver_all(caster: &mut Caster, alloc: Global, messages: &[Message]) -> Result<(), AllocError> {
    let set = MsgSet::of(alloc, messages)?;
    caster.prepare(set.len())?;
    caster.deliver(&set);
    Ok(())
}

// Whether these are the first pending messages, as many as the bound at most.
fn are_first(
    caster: &mut Caster,
    alloc: Global,
    bound: u32,
    messages: &[Message],
) -> Result<bool, AllocError> {
    Ok(caster.undelivered(alloc, bound)?.items() == messages)
}

// Whether the batch that a decision for these would deliver now has the others.
fn is_batch(
    caster: &Caster,
    alloc: Global,
    decided: &[Message],
    messages: &[Message],
) -> Result<bool, AllocError> {
    let set = MsgSet::of(alloc, decided)?;
    let batch = caster.batch(alloc, 3, &set)?;
    Ok(batch.is_same(3, messages) && !batch.is_same(4, messages) && !batch.is_same(3, decided))
}

// Whether a copy was received and delivered what this was.
fn is_copied(caster: &Caster, alloc: Global) -> Result<bool, AllocError> {
    let copy = caster.copy(alloc)?;
    Ok(copy.received() == caster.received() && copy.delivered() == caster.delivered())
}

// What comes of it is the first pending messages before each of two decisions.
fn overlaps(
    caster: &mut Caster,
    alloc: Global,
    messages: [Message; 3],
) -> Result<bool, AllocError> {
    let [first, next, last] = messages;
    receive_all(caster, &[last, next, first])?;
    let two = are_first(caster, alloc, 2, &[first, next])?;
    deliver_all(caster, alloc, &[last, next])?;
    let one = are_first(caster, alloc, MAX_BOUND, &[first])?;
    let batch = is_batch(caster, alloc, &[last, first], &[first])?;
    deliver_all(caster, alloc, &[last, first])?;
    let copied = is_copied(caster, alloc)?;
    Ok(two && one && batch && copied && delivered_all(caster, messages))
}

// Whether all was received from the last to the first, and the first of them was delivered last.
fn delivered_all(caster: &Caster, messages: [Message; 3]) -> bool {
    let [first, next, last] = messages;
    !caster.has_undelivered()
        && caster.received() == [last, next, first].as_slice()
        && caster.delivered() == [next, last, first].as_slice()
}

fn delivers_once(alloc: Global, messages: [Message; 3]) -> Result<bool, AllocError> {
    overlaps(&mut Caster::new(alloc), alloc, messages)
}

// Two decisions share a message: the first delivers it, and each delivers in the order of messages.
#[test]
fn decisions_that_overlap_deliver_a_message_once(rt: HostRuntime) -> Result<(), Fail> {
    let messages = [message(1, 2)?, message(2, 1)?, message(3, 1)?];
    assert!(rt; delivers_once(rt.alloc(), messages)?);
    Ok(())
}
