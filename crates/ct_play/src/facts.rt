//! What facts say of members, and what is there.

ghost use Rattle.std.specs.Prelude.{◌≡◌, ◌==◌, OnOk, IsTrue, decimal, false, is_some, option_map};
ghost use Rattle.std.specs.List.{list_all, zip};
ghost use Rattle.std.specs.Option.{option_map_or};
ghost use Rattle.std.specs.Str.{bytes_eq};
ghost use Rattle.ct_text.specs.Adds.{Adds};
ghost use Rattle.ct_names.specs.Group.{is_member};
ghost use Rattle.ct_model.specs.contracts.phase.PhasePartialEq.TheImpl.{ghosts as phases};
ghost use Rattle.ct_model.specs.Received.{received_by};
ghost use Rattle.ct_model.specs.Rehearsal.{state_of};
ghost use Rattle.ct_model.specs.State.{delivered};
ghost use Rattle.ct_table.specs.Table.{table};
ghost use Rattle.ct_world.specs.World.{member_of};
ghost use Rattle.ct_text.specs.Lists.{decisions_text, messages_text, table_text};
ghost use Rattle.ct_play.specs.Facts.{acked_at, act_reason, allowed_or, are_decided, are_named, are_those, barred_reason, decision_count};
ghost use Rattle.ct_play.specs.Facts.{estimate_text, heard_at, holds, is_among, is_as_said, is_decided, is_estimate, is_named, is_reason};
ghost use Rattle.ct_play.specs.Facts.{open_text, place_text, round_text, step_reason, there, up_text, waits_text, wanted};

use crate::acting::step_of;
use crate::claims::last_of;
use crate::cuts::barred;
use crate::line_fault::LineFault;
use crate::picking::{is_waiting, waiting_at};
use crate::stage::Stage;
use ct_grammar::{Decision, Estimate, Fact, Name, Names, Reason};
use ct_model::{Phase, Step};
use ct_names::{Member, MemberSet, Message, Round};
use ct_print::push_fact;
use ct_table::Table;
use ct_text::{
    phase_name, push_decisions, push_estimate_of, push_members_of, push_messages, push_table,
};
use ct_world::World;
use std::alloc::{AllocError, Global};

// ---- what is expected

// Whether the fact holds of the member, which has to be one of the group's.
#[tactic(auto, unfolding(crate::specs::Facts::holds))]
pub(crate) fn holds(stage: &Stage, member: Member, fact: &Fact) -> bool
    ensures { result ≡ holds stage.now member fact.now }
{
    if stage.world().group().has(member) {
        is_as_said(stage, member, fact)
    } else {
        false
    }
}

// Whether what is expected of the member is so.
fn is_as_said(stage: &Stage, member: Member, fact: &Fact) -> bool
    requires { IsTrue (is_member stage.now.rehearsal.setting.members member) }
    ensures { result ≡ is_as_said stage.now member fact.now }
{
    let world = stage.world();
    match fact {
        Fact::Up => !world.crashed(member),
        Fact::Crashed => world.crashed(member),
        Fact::Idle => world.round(member).is_none(),
        Fact::Instance(instance) => last_of(world, member) == *instance,
        Fact::Round(round) => is_in_round(world.round(member), *round),
        Fact::Phase(phase) => is_in_phase(world.round(member), *phase),
        Fact::Received(names) => are_named(names, world.received(member).unwrap_or(&[])),
        Fact::Decided(decisions) => are_decided(world, member, decisions.as_slice()),
        Fact::Delivered(names) => are_named(names, world.delivered(member).unwrap_or(&[])),
        Fact::Table(table) => has_table(world, member, table),
        Fact::Refuses(act, reason) => {
            is_reason(act_reason(stage, step_of(stage, member, *act)), *reason)
        }
        Fact::May(act) => act_reason(stage, step_of(stage, member, *act)).is_none(),
        Fact::Waiting(count) => waiting_at(stage, member).len() == *count as usize,
        Fact::Waits(pick) => is_waiting(stage, member, *pick),
        Fact::Heard(set) => heard_at(world, member) == *set,
        Fact::Acked(set) => acked_at(world, member) == *set,
        Fact::Estimate(estimate) => is_estimate(world.estimate(member), estimate),
    }
}

fn is_in_round(place: Option<(Round, Phase)>, wanted: Round) -> bool
    ensures { result ≡ option_map_or (λ place. place.0 == wanted) place false }
{
    match place {
        None => false,
        Some((round, _)) => round == wanted,
    }
}

fn is_in_phase(place: Option<(Round, Phase)>, wanted: Phase) -> bool
    ensures { result ≡ option_map_or (λ place. phases.eq place.1 wanted) place false }
{
    match place {
        None => false,
        Some((_, phase)) => phase == wanted,
    }
}

// Whether the message has this name.
pub(crate) fn is_named(name: Name, message: &Message) -> bool
    ensures { result ≡ is_named name message.now }
{
    message.origin() == name.origin && message.number() == name.number
}

// Whether the messages have these names, in this order.
fn are_named(names: &Names, list: &[Message]) -> bool
    ensures { result ≡ are_named names.now list.now }
{
    let names = names.as_slice();
    names.len() == list.len() && each_named(names, list)
}

pub(crate) fn each_named(names: &[Name], list: &[Message]) -> bool
    ensures { result ≡ list_all (λ pair. is_named pair.0 pair.1) (zip names.now list.now) }
{
    names
        .iter()
        .zip(list)
        .all(|(name, message)| is_named(*name, message))
}

// Whether the message has one of these names.
pub(crate) fn is_among(names: &[Name], message: &Message) -> bool
    ensures { result ≡ is_among names.now message.now }
{
    names.iter().any(|name| is_named(*name, message))
}

// Whether the messages, of which each is there once, have these names, in any order.
fn are_those(names: &Names, list: &[Message]) -> bool
    ensures { result ≡ are_those names.now list.now }
{
    let names = names.as_slice();
    names.len() == list.len() && each_among(names, list)
}

fn each_among(names: &[Name], list: &[Message]) -> bool
    ensures { result ≡ list_all (is_among names.now) list.now }
{
    list.iter().all(|message| is_among(names, message))
}

// For how many instances the member got the decision.
#[tactic(auto, unfolding(crate::specs::Facts::decision_count))]
pub(crate) fn decision_count(world: &World, member: Member) -> u32
    requires { IsTrue (is_member world.now.rehearsal.setting.members member) }
    ensures { result ≡ decision_count (member_of world.now.rehearsal member).got }
{
    let mut count = 0;
    for i in 0..world.last_decided(member).unwrap_or(0) {
        if world.decided(member, i + 1).is_some() {
            count += 1;
        }
    }
    count
}

// Whether that was decided for the instance.
fn is_decided(world: &World, member: Member, decision: &Decision) -> bool
    requires { IsTrue (is_member world.now.rehearsal.setting.members member) }
    ensures { result ≡ is_decided (member_of world.now.rehearsal member).got decision.now }
{
    match world.decided(member, decision.instance) {
        None => false,
        Some(list) => are_those(&decision.names, list),
    }
}

// Whether the member got these decisions, which are of one instance each, and no other.
fn are_decided(world: &World, member: Member, decisions: &[Decision]) -> bool
    requires { IsTrue (is_member world.now.rehearsal.setting.members member) }
    ensures { result ≡ are_decided (member_of world.now.rehearsal member).got decisions.now }
{
    each_decided(world, member, decisions)
        && decision_count(world, member) as usize == decisions.len()
}

fn each_decided(world: &World, member: Member, decisions: &[Decision]) -> bool
    requires { IsTrue (is_member world.now.rehearsal.setting.members member) }
    ensures { result ≡ list_all (is_decided (member_of world.now.rehearsal member).got) decisions.now }
{
    decisions
        .iter()
        .all(|decision| is_decided(world, member, decision))
}

// Whether the member's table is this one.
fn has_table(world: &World, member: Member, wanted: &Table) -> bool
    requires { IsTrue (is_member world.now.rehearsal.setting.members member) }
    ensures { result ≡ bytes_eq (table (delivered (member_of world.now.rehearsal member))) wanted.now }
{
    match world.table(member) {
        None => unreachable!(),
        Some(table) => table == wanted,
    }
}

// Whether it is this estimate, with its ts.
fn is_estimate(there: Option<(&[Message], Round)>, wanted: &Option<Estimate>) -> bool
    ensures { result ≡ is_estimate (option_map (λ e. (e.0.now, e.1)) there.entry) wanted.now }
{
    match (there, wanted) {
        (None, None) => true,
        (Some((list, ts)), Some(wanted)) => are_those(&wanted.names, list) && ts == wanted.ts,
        _ => false,
    }
}

fn is_reason(found: Option<Reason>, reason: Reason) -> bool
    ensures { result ≡ is_reason found reason }
{
    match found {
        None => false,
        Some(other) => other == reason,
    }
}

/// Appends what is expected.
pub fn push_wanted(text: &mut String, fact: &Fact) -> Result<(), AllocError>
    ensures { OnOk result (Adds text.old text.new (wanted fact.now)) }
{
    match fact {
        Fact::Refuses(_, reason) => write!(text, "refuses {reason}"),
        Fact::May(_) => text.push_str("allowed"),
        Fact::Waits(_) => text.push_str("waits"),
        _ => push_fact(text, fact),
    }
}

// ---- what is there

/// Appends what is there at a member of the group, as the value of a fact of this kind is written.
pub fn push_there(
    text: &mut String,
    stage: &Stage,
    member: Member,
    fact: &Fact,
) -> Result<(), AllocError>
    requires { IsTrue (is_member stage.now.rehearsal.setting.members member) }
    ensures { OnOk result (Adds text.old text.new (there stage.now member fact.now)) }
{
    let world = stage.world();
    match fact {
        Fact::Up | Fact::Crashed => text.push_str(up_text(world.crashed(member))),
        Fact::Idle => text.push_str(open_text(world, member)),
        Fact::Instance(_) => push_instance(text, world, member),
        Fact::Round(_) => push_round(text, world.round(member)),
        Fact::Phase(_) => text.push_str(place_text(world.round(member))),
        Fact::Received(_) => push_messages(text, ' ', world.received(member).unwrap_or(&[])),
        Fact::Decided(_) => push_decisions(text, world, member),
        Fact::Delivered(_) => push_messages(text, ' ', world.delivered(member).unwrap_or(&[])),
        Fact::Table(_) => push_table_of(text, world, member),
        Fact::Refuses(act, _) | Fact::May(act) => {
            push_reason(text, act_reason(stage, step_of(stage, member, *act)))
        }
        Fact::Waiting(_) => push_count(text, waiting_at(stage, member).len()),
        Fact::Waits(pick) => text.push_str(waits_text(is_waiting(stage, member, *pick))),
        Fact::Heard(_) => push_members_of(text, ',', heard_at(world, member)),
        Fact::Acked(_) => push_members_of(text, ',', acked_at(world, member)),
        Fact::Estimate(_) => push_estimate(text, world, member),
    }
}

fn up_text(crashed: bool) -> &'static str
    ensures { result.now ≡ up_text crashed }
{
    if crashed { "crashed" } else { "up" }
}

fn open_text(world: &World, member: Member) -> &'static str
    requires { IsTrue (is_member world.now.rehearsal.setting.members member) }
    ensures { result.now ≡ open_text (is_some (member_of world.now.rehearsal member).current) }
{
    let (_, is_open) = world.instance(member).unwrap_or((0, false));
    if is_open { "open" } else { "idle" }
}

fn push_instance(text: &mut String, world: &World, member: Member) -> Result<(), AllocError>
    requires { IsTrue (is_member world.now.rehearsal.setting.members member) }
    ensures { OnOk result (Adds text.old text.new (decimal (member_of world.now.rehearsal member).last)) }
{
    let instance = last_of(world, member);
    write!(text, "{instance}")
}

fn push_round(text: &mut String, place: Option<(Round, Phase)>) -> Result<(), AllocError>
    ensures { OnOk result (Adds text.old text.new (round_text place)) }
{
    match place {
        None => text.push_str("idle"),
        Some((round, _)) => write!(text, "{round}"),
    }
}

fn place_text(place: Option<(Round, Phase)>) -> &'static str
    ensures { result.now ≡ place_text place }
{
    match place {
        None => "idle",
        Some((_, phase)) => phase_name(phase),
    }
}

fn push_table_of(text: &mut String, world: &World, member: Member) -> Result<(), AllocError>
    requires { IsTrue (is_member world.now.rehearsal.setting.members member) }
    ensures { OnOk result (Adds text.old text.new (table_text (table (delivered (member_of world.now.rehearsal member))))) }
{
    let Some(table) = world.table(member) else {
        unreachable!()
    };
    push_table(text, table)
}

fn push_reason(text: &mut String, reason: Option<Reason>) -> Result<(), AllocError>
    ensures { OnOk result (Adds text.old text.new (allowed_or reason)) }
{
    match reason {
        None => text.push_str("allowed"),
        Some(reason) => write!(text, "{reason}"),
    }
}

// Why the act is refused whose step this is; None where it is allowed.
fn act_reason(stage: &Stage, step: Result<Step, LineFault>) -> Option<Reason>
    ensures { result ≡ act_reason stage.now step }
{
    match step {
        Err(_) => Some(Reason::NotThere),
        Ok(step) => step_reason(stage, step),
    }
}

#[tactic(auto, unfolding(crate::specs::Facts::step_reason))]
fn step_reason(stage: &Stage, step: Step) -> Option<Reason>
    ensures { result ≡ step_reason stage.now step }
{
    match stage.world().enabled(&step) {
        Ok(()) => barred_reason(barred(stage, step)),
        Err(refusal) => Some(Reason::Rules(refusal)),
    }
}

fn barred_reason(fault: Option<LineFault>) -> Option<Reason>
    ensures { result ≡ barred_reason fault }
{
    match fault {
        None => None,
        Some(_) => Some(Reason::Across),
    }
}

fn push_count(text: &mut String, count: usize) -> Result<(), AllocError>
    ensures { OnOk result (Adds text.old text.new (decimal count)) }
{
    write!(text, "{count}")
}

fn waits_text(waits: bool) -> &'static str
    ensures { result.now ≡ waits_text waits }
{
    if waits { "waits" } else { "none" }
}

// The members whose estimates of its round the member has; none where no instance is open.
fn heard_at(world: &World, member: Member) -> MemberSet
    ensures { result ≡ heard_at world.now.rehearsal member }
{
    world.heard(member).unwrap_or(MemberSet::new())
}

// The members whose acks of its round the member has; none where no instance is open.
fn acked_at(world: &World, member: Member) -> MemberSet
    ensures { result ≡ acked_at world.now.rehearsal member }
{
    world.acked(member).unwrap_or(MemberSet::new())
}

// The estimate of the member; a dash where no instance is open.
fn push_estimate(text: &mut String, world: &World, member: Member) -> Result<(), AllocError>
    ensures { OnOk result (Adds text.old text.new (estimate_text world.now.rehearsal member)) }
{
    if world.round(member).is_some() {
        push_estimate_of(text, world, member)
    } else {
        text.push_str("-")
    }
}
