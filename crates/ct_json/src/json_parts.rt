//! A member's part in its open instance, as keys of JSON.

ghost use Rattle.std.specs.Prelude.{◌≡◌, [], ◌∷◌, codes, OnOk, option_map};
ghost use Rattle.serde_json.specs.Written.{compact_text};
ghost use Rattle.ct_records.specs.Values.{num};
ghost use Rattle.ct_text.specs.Adds.{Adds};
ghost use Rattle.ct_json.specs.Fields.{IsPlain, fields_text};
ghost use Rattle.ct_json.specs.JsonParts.{heard_fields, heard_value, led_fields, part_fields, phase_fields, place_fields, replies_fields};
ghost use Rattle.ct_json.specs.JsonParts.{set_field, set_value, votes_fields};

use crate::json_envelopes::{push_estimate, push_estimate_at};
use ct_model::Phase;
use ct_names::{MAX_MEMBERS, Member, MemberSet, Message, Round};
use ct_text::{coordinator_of, phase_name, push_separator};
use ct_world::World;
use std::alloc::AllocError;

// The member's part in its open instance; nothing where none is open.
#[tactic(auto, unfolding(crate::specs::JsonParts::part_fields))]
pub(crate) fn push_part(text: &mut String, world: &World, member: Member) -> Result<(), AllocError>
    ensures { OnOk result (Adds text.old text.new (fields_text (part_fields world.now.rehearsal member))) }
{
    push_place(text, world, member, world.round(member))
}

#[tactic(auto, using(crate::proofs::Fields::pieces))]
fn push_place(
    text: &mut String,
    world: &World,
    member: Member,
    round: Option<(Round, Phase)>,
) -> Result<(), AllocError>
    ensures { OnOk result (Adds text.old text.new (fields_text (place_fields world.now.rehearsal member round))) }
{
    match round {
        None => Ok(()),
        Some((round, phase)) => {
            push_phase(text, round, phase)?;
            push_led(text, round, coordinator_of(world, member))?;
            push_votes(text, world, member)
        }
    }
}

fn push_phase(text: &mut String, round: Round, phase: Phase) -> Result<(), AllocError>
    ensures { OnOk result (Adds text.old text.new (fields_text (phase_fields round phase))) }
{
    let name = phase_name(phase);
    write!(text, ",\"round\":{round},\"phase\":\"{name}\"")
}

// The coordinator of the round, which has none before the first one.
fn push_led(text: &mut String, round: Round, coordinator: Member) -> Result<(), AllocError>
    ensures { OnOk result (Adds text.old text.new (fields_text (led_fields round coordinator))) }
{
    if round == 0 {
        Ok(())
    } else {
        push_coordinator(text, coordinator)
    }
}

#[tactic(auto, unfolding(json::proofs::OnLiterals::json_on_literals))]
fn push_coordinator(text: &mut String, coordinator: Member) -> Result<(), AllocError>
    ensures { OnOk result (Adds text.old text.new (fields_text ((codes "coordinator", num coordinator) ∷ []))) }
{
    write!(text, ",\"coordinator\":{coordinator}")
}

// The member's estimate, and what it got for its round.
#[tactic(auto, using(crate::proofs::Fields::pieces), unfolding(crate::specs::JsonParts::votes_fields))]
fn push_votes(text: &mut String, world: &World, member: Member) -> Result<(), AllocError>
    ensures { OnOk result (Adds text.old text.new (fields_text (votes_fields world.now.rehearsal member))) }
{
    push_estimate_at(text, world.estimate(member))?;
    push_all_heard(text, world, member)?;
    push_replies(text, world, member)
}

// The estimates that the member heard for its round.
fn push_all_heard(text: &mut String, world: &World, member: Member) -> Result<(), AllocError>
    ensures { OnOk result (Adds text.old text.new (fields_text (heard_fields world.now.rehearsal member))) }
{
    text.push_str(",\"heard\":[")?;
    let n = world.group().n();
    let mut later = false;
    for i in 0..n {
        if let Some((value, ts)) = world.heard_from(member, i + 1) {
            push_separator(text, ',', later)?;
            push_heard(text, i + 1, value, ts)?;
            later = true;
        }
    }
    text.push_str("]")
}

fn push_heard(
    text: &mut String,
    from: Member,
    value: &[Message],
    ts: Round,
) -> Result<(), AllocError>
    ensures { OnOk result (Adds text.old text.new (compact_text (heard_value from (value.now, ts)))) }
{
    write!(text, "{{\"member\":{from}")?;
    push_estimate(text, value, ts)?;
    text.push_str("}")
}

// The members that acked the member's round, and those that replied.
#[tactic(auto, using(crate::proofs::Fields::pieces), unfolding(crate::specs::JsonParts::replies_fields, json::proofs::OnLiterals::json_on_literals))]
pub(crate) fn push_replies(
    text: &mut String,
    world: &World,
    member: Member,
) -> Result<(), AllocError>
    ensures { OnOk result (Adds text.old text.new (fields_text (replies_fields world.now.rehearsal member))) }
{
    push_set_at(text, "acked", world.acked(member))?;
    push_set_at(text, "replied", world.replied(member))
}

// The members of the set at the key; nothing where there is none.
fn push_set_at(text: &mut String, key: &str, set: Option<MemberSet>) -> Result<(), AllocError>
    requires { IsPlain key.now }
    ensures { OnOk result (Adds text.old text.new (fields_text (set_field key.now set))) }
{
    match set {
        None => Ok(()),
        Some(set) => {
            write!(text, ",\"{key}\":")?;
            push_set(text, set)
        }
    }
}

// The members of the set.
fn push_set(text: &mut String, set: MemberSet) -> Result<(), AllocError>
    ensures { OnOk result (Adds text.old text.new (compact_text (set_value set))) }
{
    text.push_str("[")?;
    let mut later = false;
    for i in 0..MAX_MEMBERS {
        let member = i + 1;
        if set.contains(member) {
            push_separator(text, ',', later)?;
            write!(text, "{member}")?;
            later = true;
        }
    }
    text.push_str("]")
}
