//! What stands in comments behind steps.

ghost use Rattle.std.specs.Prelude.{◌≤◌};

use ct_model::Step;
use ct_names::{MAX_ENVELOPES, Member};
use ct_play::{outcome, push_came};
use ct_text::{instance_of, round_of};
use ct_world::{Wire, World};
use std::alloc::{AllocError, Global};

// What the world's last step came to, before which so many envelopes had been sent: the message, the proposal, the round, the
// decision or the batch. Nothing of other steps.
pub(crate) fn remark_of(
    alloc: Global,
    world: &World,
    before: u32,
    step: Step,
) -> Result<String, AllocError>
    requires { before ≤ MAX_ENVELOPES }
{
    let mut text = String::new(alloc);
    match step {
        Step::Submit(..) => push_message(&mut text, world, before)?,
        Step::Begin(_) => push_result(&mut text, "proposes ", world, step)?,
        Step::Enter(member) => push_round(&mut text, world, member)?,
        Step::Choose(..) => push_result(&mut text, "proposes ", world, step)?,
        Step::Conclude(member) => push_decision(&mut text, world, before, member)?,
        Step::Deliver(_) => push_result(&mut text, "delivers ", world, step)?,
        Step::Follow(_) => push_result(&mut text, "delivers ", world, step)?,
        _ => {}
    }
    Ok(text)
}

// What the step came to.
fn push_result(text: &mut String, word: &str, world: &World, step: Step) -> Result<(), AllocError> {
    text.push_str(word)?;
    push_came(text, outcome(world, step))
}

// The name of the message that was sent first since.
fn push_message(text: &mut String, world: &World, before: u32) -> Result<(), AllocError>
    requires { before ≤ MAX_ENVELOPES }
{
    match world.letter(before + 1) {
        None => Ok(()),
        Some(letter) => push_name(text, &letter.wire),
    }
}

fn push_name(text: &mut String, wire: &Wire) -> Result<(), AllocError> {
    match *wire {
        Wire::Data(message) => write!(text, "message {message}"),
        _ => Ok(()),
    }
}

// The round that the member is in.
fn push_round(text: &mut String, world: &World, member: Member) -> Result<(), AllocError> {
    let instance = instance_of(world, member);
    let round = round_of(world, member);
    let coordinator = world.group().coordinator(round);
    write!(
        text,
        "round {round} of instance {instance}, coordinator {coordinator}"
    )
}

// What the member decides, where it sent anything since.
fn push_decision(
    text: &mut String,
    world: &World,
    before: u32,
    member: Member,
) -> Result<(), AllocError> {
    if world.sent() == before {
        text.push_str("no decision")
    } else {
        push_result(text, "decides ", world, Step::Begin(member))
    }
}
