//! The state that a record leads to, shown: two lines of the whole, and lines of each member.

ghost use Rattle.std.specs.Prelude.{◌≡◌, ◌++◌, IfOk, OnOk, IsTrue, codes, flat_map, option_map};
ghost use Rattle.ct_text.specs.Adds.{Adds};
ghost use Rattle.ct_names.specs.Group.{is_member};
ghost use Rattle.ct_model.specs.Rehearsal.{line_of};
ghost use Rattle.ct_model.specs.State.{at_serial};
ghost use Rattle.ct_show.specs.Acts.{step_words};
ghost use Rattle.ct_show.specs.State.{progress_text, standing_line, estimate_line, set_line, votes_lines};
ghost use Rattle.ct_show.specs.State.{sender_text, waiting_line, enabled_line, refusal_line, refused_line, steps_lines, tried_text};
ghost use Rattle.ct_show.specs.State.{next_line};
ghost use Rattle.ct_show.specs.State.{member_lines, first_members, group_line, counts_line, state_lines};

use crate::acts::push_step;
use crate::facts::{push_all_heard, push_place_in};
use crate::own::{enabled_steps, first_receipt, next_steps, own_steps, told_refusal};
use crate::traced::Traced;
use crate::wires::push_serial;
use ct_model::{Phase, Step};
use ct_names::{MAX_MEMBERS, Member, MemberSet, Message, Refusal, Round, Serial};
use ct_text::{instance_of, push_estimate, push_members_of};
use ct_world::World;
use std::alloc::{AllocError, Global};

/// The state of the world as text: two lines of the whole, and lines of each member.
#[tactic(auto, unfolding(crate::specs::State::state_lines))]
pub fn state_text(alloc: Global, traced: &Traced) -> Result<Vec<u8>, AllocError>
    ensures { IfOk result (λ bytes. bytes.items ≡ state_lines traced.now.world.rehearsal traced.now.senders.items) }
{
    let mut text = String::new(alloc);
    push_group(&mut text, &traced.world)?;
    push_counts(&mut text, &traced.world)?;
    push_members(&mut text, &traced.world, &traced.senders)?;
    Ok(text.into_bytes())
}

#[tactic(auto, unfolding(crate::specs::State::group_line))]
fn push_group(text: &mut String, world: &World) -> Result<(), AllocError>
    ensures { OnOk result (Adds text.old text.new (group_line world.now.rehearsal)) }
{
    let group = world.group();
    let n = group.n();
    let majority = group.majority();
    let cells = world.cells();
    let bound = world.bound();
    write!(
        text,
        "group {n} majority {majority} cells {cells} batch {bound}\n"
    )
}

#[tactic(auto, unfolding(crate::specs::State::counts_line))]
fn push_counts(text: &mut String, world: &World) -> Result<(), AllocError>
    ensures { OnOk result (Adds text.old text.new (counts_line world.now.rehearsal)) }
{
    let steps = world.record().len();
    let sent = world.sent();
    let posted = world.posted();
    write!(text, "steps {steps} sent {sent} posted {posted}\n")
}

fn push_members(text: &mut String, world: &World, senders: &[Member]) -> Result<(), AllocError>
    ensures { OnOk result (Adds text.old text.new (first_members world.now.rehearsal senders.now world.now.rehearsal.setting.members)) }
{
    let n = world.group().n();
    for i in 0..n {
        push_member(text, world, senders, i + 1)?;
    }
    Ok(())
}

#[tactic(auto, unfolding(crate::specs::State::member_lines))]
fn push_member(
    text: &mut String,
    world: &World,
    senders: &[Member],
    member: Member,
) -> Result<(), AllocError>
    requires { IsTrue (is_member world.now.rehearsal.setting.members member) }
    ensures { OnOk result (Adds text.old text.new (member_lines world.now.rehearsal senders.now member)) }
{
    push_standing(text, world, member)?;
    push_votes(text, world, member)?;
    let line = world.waiting(member).unwrap_or(&[]);
    push_waiting(text, world, senders, line)?;
    push_steps(text, world, member)?;
    push_next(text, world, member, line)
}

#[tactic(auto, unfolding(crate::specs::State::standing_line))]
fn push_standing(text: &mut String, world: &World, member: Member) -> Result<(), AllocError>
    requires { IsTrue (is_member world.now.rehearsal.setting.members member) }
    ensures { OnOk result (Adds text.old text.new (standing_line world.now.rehearsal member)) }
{
    let state = if world.crashed(member) {
        "crashed"
    } else {
        "up"
    };
    let instance = instance_of(world, member);
    write!(text, "member {member} {state} instance {instance}")?;
    push_progress(text, world, member, world.round(member))?;
    text.push_str("\n")
}

fn push_progress(
    text: &mut String,
    world: &World,
    member: Member,
    round: Option<(Round, Phase)>,
) -> Result<(), AllocError>
    ensures { OnOk result (Adds text.old text.new (progress_text world.now.rehearsal member round)) }
{
    match round {
        None => text.push_str(" idle"),
        Some((round, phase)) => push_place_in(text, world, member, round, phase),
    }
}

// The estimate of the member, and what it got for its round.
#[tactic(auto, unfolding(crate::specs::State::votes_lines))]
fn push_votes(text: &mut String, world: &World, member: Member) -> Result<(), AllocError>
    ensures { OnOk result (Adds text.old text.new (votes_lines world.now.rehearsal member)) }
{
    push_estimate_line(text, world.estimate(member))?;
    push_all_heard(text, "  heard    ", "\n", world, member)?;
    push_set_line(text, "  acked    ", world.acked(member))?;
    push_set_line(text, "  replied  ", world.replied(member))
}

#[tactic(auto, unfolding(crate::specs::State::estimate_line))]
fn push_estimate_line(
    text: &mut String,
    estimate: Option<(&[Message], Round)>,
) -> Result<(), AllocError>
    ensures { OnOk result (Adds text.old text.new (estimate_line (option_map (λ e. (e.0.now, e.1)) estimate.entry))) }
{
    match estimate {
        None => Ok(()),
        Some(estimate) => {
            text.push_str("  estimate ")?;
            push_estimate(text, Some(estimate))?;
            text.push_str("\n")
        }
    }
}

// The word and the members of the set.
#[tactic(auto, unfolding(crate::specs::State::set_line))]
fn push_set_line(text: &mut String, word: &str, set: Option<MemberSet>) -> Result<(), AllocError>
    ensures { OnOk result (Adds text.old text.new (set_line word.now set)) }
{
    match set {
        None => Ok(()),
        Some(set) => {
            text.push_str(word)?;
            push_members_of(text, ' ', set)?;
            text.push_str("\n")
        }
    }
}

// The envelopes of these serials.
fn push_waiting(
    text: &mut String,
    world: &World,
    senders: &[Member],
    line: &[Serial],
) -> Result<(), AllocError>
    ensures { OnOk result (Adds text.old text.new (flat_map (waiting_line world.now.rehearsal senders.now) line.now)) }
{
    for serial in line {
        push_envelope(text, world, senders, *serial)?;
    }
    Ok(())
}

#[tactic(auto, unfolding(crate::specs::State::waiting_line))]
fn push_envelope(
    text: &mut String,
    world: &World,
    senders: &[Member],
    serial: Serial,
) -> Result<(), AllocError>
    ensures { OnOk result (Adds text.old text.new (waiting_line world.now.rehearsal senders.now serial)) }
{
    text.push_str("  waiting  ")?;
    push_serial(text, world, serial)?;
    push_sender(text, sender_at(senders, serial))?;
    text.push_str("\n")
}

/// The member of the list at the serial, where there is one.
pub fn sender_at(senders: &[Member], serial: Serial) -> Option<Member>
    ensures { result ≡ at_serial senders.now serial }
{
    let place = (serial as usize).checked_sub(1)?;
    senders.get(place).copied()
}

fn push_sender(text: &mut String, sender: Option<Member>) -> Result<(), AllocError>
    ensures { OnOk result (Adds text.old text.new (sender_text sender)) }
{
    match sender {
        None => Ok(()),
        Some(sender) => write!(text, ", sent by {sender}"),
    }
}

// The steps of its own that the member may take, and those that it may not.
#[tactic(auto, unfolding(crate::specs::State::steps_lines))]
fn push_steps(text: &mut String, world: &World, member: Member) -> Result<(), AllocError>
    ensures { OnOk result (Adds text.old text.new (steps_lines world.now.rehearsal member)) }
{
    let alloc = *text.allocator();
    push_enabled(text, &enabled_steps(alloc, world, member)?)?;
    push_refused(
        text,
        world,
        &own_steps(alloc, member, &[Step::Choose(member, member)])?,
    )
}

fn push_enabled(text: &mut String, steps: &[Step]) -> Result<(), AllocError>
    ensures { OnOk result (Adds text.old text.new (flat_map enabled_line steps.now)) }
{
    for step in steps {
        push_enabled_line(text, *step)?;
    }
    Ok(())
}

#[tactic(auto, unfolding(crate::specs::State::enabled_line))]
fn push_enabled_line(text: &mut String, step: Step) -> Result<(), AllocError>
    ensures { OnOk result (Adds text.old text.new (enabled_line step)) }
{
    text.push_str("  enabled  ")?;
    push_step(text, step)?;
    text.push_str("\n")
}

// Those of the steps that are refused.
fn push_refused(text: &mut String, world: &World, steps: &[Step]) -> Result<(), AllocError>
    ensures { OnOk result (Adds text.old text.new (flat_map (refused_line world.now.rehearsal) steps.now)) }
{
    for step in steps {
        push_if_refused(text, world, *step)?;
    }
    Ok(())
}

fn push_if_refused(text: &mut String, world: &World, step: Step) -> Result<(), AllocError>
    ensures { OnOk result (Adds text.old text.new (refused_line world.now.rehearsal step)) }
{
    match told_refusal(world, step) {
        None => Ok(()),
        Some(refusal) => push_refusal(text, step, refusal),
    }
}

#[tactic(auto, unfolding(crate::specs::State::refusal_line))]
fn push_refusal(text: &mut String, step: Step, refusal: Refusal) -> Result<(), AllocError>
    ensures { OnOk result (Adds text.old text.new (refusal_line step refusal)) }
{
    text.push_str("  refused  ")?;
    push_step(text, step)?;
    write!(text, " {refusal}\n")
}

// What a driver does next at the member, which has this waiting line.
#[tactic(auto, unfolding(crate::specs::State::next_line))]
fn push_next(
    text: &mut String,
    world: &World,
    member: Member,
    line: &[Serial],
) -> Result<(), AllocError>
    requires { line.now ≡ line_of world.now.rehearsal member }
    ensures { OnOk result (Adds text.old text.new (next_line world.now.rehearsal member)) }
{
    let receipt = first_receipt(world, member, line);
    let steps = next_steps(*text.allocator(), world.next_local(member), receipt)?;
    text.push_str("  next     ")?;
    push_tried(text, &steps)?;
    text.push_str("\n")
}

fn push_tried(text: &mut String, steps: &[Step]) -> Result<(), AllocError>
    ensures { OnOk result (Adds text.old text.new (tried_text steps.now)) }
{
    match steps {
        [] => text.push_str("-"),
        [first, rest @ ..] => {
            push_step(text, *first)?;
            push_others(text, rest)
        }
    }
}

fn push_others(text: &mut String, steps: &[Step]) -> Result<(), AllocError>
    ensures { OnOk result (Adds text.old text.new (flat_map (λ other. codes " or " ++ step_words other) steps.now)) }
{
    for step in steps {
        text.push_str(" or ")?;
        push_step(text, *step)?;
    }
    Ok(())
}
