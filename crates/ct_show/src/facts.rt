//! The line of a refused step, with the facts behind the refusal. The world is the one before the step.

ghost use Rattle.std.specs.Prelude.{◌≡◌, flat_map, length, Some, OnOk, option_map};
ghost use Rattle.ct_model.specs.Rehearsal.{state_of};
ghost use Rattle.ct_text.specs.Adds.{Adds};
ghost use Rattle.ct_text.specs.Standing.{coordinator_of};
ghost use Rattle.ct_show.specs.Facts.Fact.{InRound, Unsent};
ghost use Rattle.ct_show.specs.Facts.{fact_text, facts_text, first_heard, heard_of, heard_text, last_taking, left_in};
ghost use Rattle.ct_show.specs.Facts.{left_text, letter_facts, member_facts, part, place};
ghost use Rattle.ct_show.specs.Facts.{refused_text, returns, takes, taking_or, texts_of};

use crate::acts::{push_act, push_step};
use crate::details::{push_acks, push_coordinator};
use crate::lines::push_head;
use crate::wires::push_wire;
use ct_model::{Phase, Step};
use ct_names::{Member, Message, Refusal, Round, Serial};
use ct_text::{coordinator_of, instance_of, phase_name, push_estimate, push_estimate_of};
use ct_world::{Letter, World};
use std::alloc::AllocError;

/// Appends the line of the step of this number, counted from 1, which is refused so in the world.
#[tactic(auto, unfolding(crate::specs::Facts::refused_text))]
pub fn push_refused(
    text: &mut String,
    world: &World,
    number: usize,
    step: Step,
    refusal: Refusal,
) -> Result<(), AllocError>
    ensures { OnOk result (Adds text.old text.new (refused_text world.now.rehearsal number step refusal)) }
{
    push_head(text, number, step.member())?;
    push_act(text, step)?;
    write!(text, "  REFUSED {refusal}: ")?;
    push_facts(text, world, step, refusal)?;
    text.push_str("\n")
}

/// Appends the facts behind the refusal of a step: the envelope that the step names, or where its member stands.
#[tactic(auto, unfolding(crate::specs::Facts::facts_text, crate::specs::Facts::member_facts))]
pub fn push_facts(
    text: &mut String,
    world: &World,
    step: Step,
    refusal: Refusal,
) -> Result<(), AllocError>
    ensures { OnOk result (Adds text.old text.new (facts_text world.now.rehearsal step refusal)) }
{
    match step {
        Step::Receive(_, serial)
        | Step::Postpone(_, serial)
        | Step::Lose(_, serial)
        | Step::Repeat(_, serial) => {
            push_letter_facts(text, world, serial, world.letter(serial), refusal)
        }
        step => push_member_facts(text, world, step.member()),
    }
}

// The envelope of the serial, where it is, and when it left its line.
fn push_letter_facts(
    text: &mut String,
    world: &World,
    serial: Serial,
    letter: Option<Letter>,
    refusal: Refusal,
) -> Result<(), AllocError>
    ensures { OnOk result (Adds text.old text.new (texts_of (letter_facts world.now.rehearsal serial letter refusal))) }
{
    match letter {
        None => push_missing(text, world, serial),
        Some(letter) => {
            write!(text, "#{serial} ")?;
            push_wire(text, &letter.wire, world.value(serial).unwrap_or(&[]))?;
            push_place(text, world, serial, letter.to, refusal)
        }
    }
}

// How many envelopes were sent, where there is none of the serial.
fn push_missing(text: &mut String, world: &World, serial: Serial) -> Result<(), AllocError>
    ensures { OnOk result (Adds text.old text.new (fact_text (Unsent serial (length (state_of world.now.rehearsal).sent)))) }
{
    let sent = world.sent();
    write!(text, "#{serial} was not sent: {sent} envelopes were")
}

// Where an envelope to the member is, as far as the refusal tells, and when it left its line.
fn push_place(
    text: &mut String,
    world: &World,
    serial: Serial,
    to: Member,
    refusal: Refusal,
) -> Result<(), AllocError>
    ensures { OnOk result (Adds text.old text.new (texts_of (place world.now.rehearsal serial to refusal))) }
{
    match refusal {
        Refusal::NotSent => write!(text, " went to member {to}"),
        Refusal::StillWaiting => text.push_str(" is in its line"),
        Refusal::NotWaiting => {
            write!(text, " to {to}")?;
            push_left(text, last_taking(world.record(), serial))
        }
        _ => write!(text, " to {to}"),
    }
}

fn push_left(text: &mut String, taking: Option<(usize, Step)>) -> Result<(), AllocError>
    ensures { OnOk result (Adds text.old text.new (left_text taking)) }
{
    match taking {
        None => Ok(()),
        Some((number, step)) => push_left_in(text, number, step),
    }
}

#[tactic(auto, unfolding(crate::specs::Facts::left_in))]
fn push_left_in(text: &mut String, number: usize, step: Step) -> Result<(), AllocError>
    ensures { OnOk result (Adds text.old text.new (left_in (number, step))) }
{
    write!(text, ", left in step {number}: ")?;
    push_step(text, step)
}

/// The last of the steps that takes the envelope of the serial out of a line, after its number, which counts from 1; none where a
/// later one puts it back.
pub fn last_taking(steps: &[Step], serial: Serial) -> Option<(usize, Step)>
    ensures { result ≡ last_taking steps.now serial (length steps.now) }
{
    let mut last = None;
    for (i, step) in steps.iter().enumerate() {
        last = taking_or(last, serial, i + 1, *step);
    }
    last
}

fn taking_or(
    before: Option<(usize, Step)>,
    serial: Serial,
    number: usize,
    step: Step,
) -> Option<(usize, Step)>
    ensures { result ≡ taking_or before serial number (Some step) }
{
    if takes(step, serial) {
        Some((number, step))
    } else if returns(step, serial) {
        None
    } else {
        before
    }
}

fn takes(step: Step, serial: Serial) -> bool
    ensures { result ≡ takes step serial }
{
    match step {
        Step::Receive(_, other) | Step::Lose(_, other) => other == serial,
        _ => false,
    }
}

fn returns(step: Step, serial: Serial) -> bool
    ensures { result ≡ returns step serial }
{
    match step {
        Step::Repeat(_, other) => other == serial,
        _ => false,
    }
}

/// Appends where a member stands.
#[tactic(auto, unfolding(crate::specs::Facts::member_facts))]
pub fn push_member_facts(text: &mut String, world: &World, member: Member) -> Result<(), AllocError>
    ensures { OnOk result (Adds text.old text.new (member_facts world.now.rehearsal member)) }
{
    let instance = instance_of(world, member);
    write!(text, "instance {instance}")?;
    push_part(text, world, member, world.round(member))
}

#[tactic(auto, unfolding(ct_text::specs::Standing::estimate_of, crate::specs::Details::acks_text))]
fn push_part(
    text: &mut String,
    world: &World,
    member: Member,
    round: Option<(Round, Phase)>,
) -> Result<(), AllocError>
    ensures { OnOk result (Adds text.old text.new (texts_of (part world.now.rehearsal member round))) }
{
    match round {
        None => text.push_str(" idle"),
        Some((round, phase)) => {
            push_place_in(text, world, member, round, phase)?;
            text.push_str(", estimate ")?;
            push_estimate_of(text, world, member)?;
            push_all_heard(text, ", heard ", "", world, member)?;
            push_acks(text, ",", world, member)
        }
    }
}

// Where the member is in its open instance. A round before the first one has no coordinator.
pub(crate) fn push_place_in(
    text: &mut String,
    world: &World,
    member: Member,
    round: Round,
    phase: Phase,
) -> Result<(), AllocError>
    ensures { OnOk result (Adds text.old text.new (fact_text (InRound round phase (coordinator_of world.now.rehearsal member)))) }
{
    let name = phase_name(phase);
    write!(text, " round {round} {name}")?;
    if round == 0 {
        Ok(())
    } else {
        push_coordinator(text, coordinator_of(world, member))
    }
}

// The estimates that the member heard for its round, each between these texts.
pub(crate) fn push_all_heard(
    text: &mut String,
    before: &str,
    after: &str,
    world: &World,
    member: Member,
) -> Result<(), AllocError>
    ensures { OnOk result (Adds text.old text.new
        (flat_map (heard_text before.now after.now) (first_heard world.now.rehearsal member world.now.rehearsal.setting.members))) }
{
    let n = world.group().n();
    for i in 0..n {
        push_heard(text, before, after, i + 1, world.heard_from(member, i + 1))?;
    }
    Ok(())
}

#[tactic(auto, unfolding(crate::specs::Facts::heard_text))]
fn push_heard(
    text: &mut String,
    before: &str,
    after: &str,
    from: Member,
    heard: Option<(&[Message], Round)>,
) -> Result<(), AllocError>
    ensures { OnOk result (Adds text.old text.new
        (flat_map (heard_text before.now after.now) (heard_of from (option_map (λ e. (e.0.now, e.1)) heard.entry)))) }
{
    match heard {
        None => Ok(()),
        Some(heard) => {
            write!(text, "{before}{from} ")?;
            push_estimate(text, Some(heard))?;
            text.push_str(after)
        }
    }
}
