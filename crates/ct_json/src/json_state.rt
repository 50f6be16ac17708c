//! The state that a record leads to, as JSON: an object of the whole, and one of each member, each with a line feed.

ghost use Rattle.std.specs.Prelude.{◌≡◌, map, IfOk, OnOk, IsTrue};
ghost use Rattle.serde_json.specs.Written.{compact_text};
ghost use Rattle.ct_names.specs.Group.{is_member, members};
ghost use Rattle.ct_model.specs.Rehearsal.{line_of};
ghost use Rattle.ct_text.specs.Adds.{Adds};
ghost use Rattle.ct_json.specs.Fields.{IsPlain, array_by, fields_text, line_text, lines_text};
ghost use Rattle.ct_records.specs.Values.{step_data};
ghost use Rattle.ct_json.specs.JsonState.{chances_fields, member_value, next_fields, refusal_value, refused_fields, steps_at};
ghost use Rattle.ct_json.specs.JsonState.{state_json, steps_fields, waiting_fields, whole_value};

use crate::json_envelopes::push_envelope;
use crate::json_parts::push_part;
use crate::report::{push_counts, push_group, push_history, push_standing};
use ct_model::Step;
use ct_names::{Member, Refusal, Serial};
use ct_show::{
    Traced, enabled_steps, first_receipt, next_steps, own_steps, sender_at, told_refusal,
};
use ct_text::push_separator;
use ct_world::World;
use std::alloc::{AllocError, Global};

/// The state of the world as JSON: an object of the whole and one of each member, each with a line feed.
#[tactic(auto, unfolding(crate::specs::JsonState::state_json, crate::specs::JsonState::state_values))]
pub fn state_json(alloc: Global, traced: &Traced) -> Result<Vec<u8>, AllocError>
    ensures { IfOk result (λ bytes. bytes.items ≡ state_json traced.now.world.rehearsal traced.now.senders.items) }
{
    let mut text = String::new(alloc);
    push_whole(&mut text, &traced.world)?;
    push_members(alloc, &mut text, &traced.world, &traced.senders)?;
    Ok(text.into_bytes())
}

// What the record begins with, and what it comes to.
#[tactic(auto, using(crate::proofs::Fields::pieces), unfolding(crate::specs::JsonState::whole_value))]
fn push_whole(text: &mut String, world: &World) -> Result<(), AllocError>
    ensures { OnOk result (Adds text.old text.new (line_text (whole_value world.now.rehearsal))) }
{
    push_group(text, world)?;
    push_counts(text, world)?;
    text.push_str("}\n")
}

fn push_members(
    alloc: Global,
    text: &mut String,
    world: &World,
    senders: &[Member],
) -> Result<(), AllocError>
    ensures { OnOk result (Adds text.old text.new
        (lines_text (map (member_value world.now.rehearsal senders.now) (members world.now.rehearsal.setting.members)))) }
{
    let n = world.group().n();
    for i in 0..n {
        push_member(alloc, text, world, senders, i + 1)?;
    }
    Ok(())
}

#[tactic(auto, using(crate::proofs::Fields::pieces), unfolding(crate::specs::JsonState::member_value))]
fn push_member(
    alloc: Global,
    text: &mut String,
    world: &World,
    senders: &[Member],
    member: Member,
) -> Result<(), AllocError>
    requires { IsTrue (is_member world.now.rehearsal.setting.members member) }
    ensures { OnOk result (Adds text.old text.new (line_text (member_value world.now.rehearsal senders.now member))) }
{
    push_standing(text, world, member)?;
    push_part(text, world, member)?;
    push_history(text, world, member)?;
    let line = world.waiting(member).unwrap_or(&[]);
    push_chances(alloc, text, world, senders, member, line)?;
    text.push_str("}\n")
}

// What waits for the member, which has this waiting line, and what it may do.
#[tactic(auto, using(crate::proofs::Fields::pieces), unfolding(crate::specs::JsonState::chances_fields))]
fn push_chances(
    alloc: Global,
    text: &mut String,
    world: &World,
    senders: &[Member],
    member: Member,
    line: &[Serial],
) -> Result<(), AllocError>
    requires { line.now ≡ line_of world.now.rehearsal member }
    ensures { OnOk result (Adds text.old text.new (fields_text (chances_fields world.now.rehearsal senders.now member))) }
{
    push_waiting(text, world, senders, line)?;
    push_steps(alloc, text, world, member)?;
    push_next(alloc, text, world, member, line)
}

// The envelopes of these serials.
fn push_waiting(
    text: &mut String,
    world: &World,
    senders: &[Member],
    line: &[Serial],
) -> Result<(), AllocError>
    ensures { OnOk result (Adds text.old text.new (fields_text (waiting_fields world.now.rehearsal senders.now line.now))) }
{
    text.push_str(",\"waiting\":[")?;
    for (i, serial) in line.iter().enumerate() {
        push_separator(text, ',', i > 0)?;
        push_envelope(text, sender_at(senders, *serial), world, *serial)?;
    }
    text.push_str("]")
}

// The steps of its own that the member may take, and those that it may not.
#[tactic(auto, using(crate::proofs::Fields::pieces), unfolding(crate::specs::JsonState::steps_fields, json::proofs::OnLiterals::json_on_literals))]
fn push_steps(
    alloc: Global,
    text: &mut String,
    world: &World,
    member: Member,
) -> Result<(), AllocError>
    ensures { OnOk result (Adds text.old text.new (fields_text (steps_fields world.now.rehearsal member))) }
{
    push_steps_at(text, "enabled", &enabled_steps(alloc, world, member)?)?;
    push_refused(
        text,
        world,
        &own_steps(alloc, member, &[Step::Choose(member, member)])?,
    )
}

// The steps behind the key, as a record has them.
fn push_steps_at(text: &mut String, key: &str, steps: &[Step]) -> Result<(), AllocError>
    requires { IsPlain key.now }
    ensures { OnOk result (Adds text.old text.new (fields_text (steps_at key.now steps.now))) }
{
    write!(text, ",\"{key}\":")?;
    push_entries(text, steps)
}

fn push_entries(text: &mut String, steps: &[Step]) -> Result<(), AllocError>
    ensures { OnOk result (Adds text.old text.new (compact_text (array_by step_data steps.now))) }
{
    text.push_str("[")?;
    for (i, step) in steps.iter().enumerate() {
        push_separator(text, ',', i > 0)?;
        write!(text, "{step}")?;
    }
    text.push_str("]")
}

// Those that are refused, and why.
fn push_refused(text: &mut String, world: &World, steps: &[Step]) -> Result<(), AllocError>
    ensures { OnOk result (Adds text.old text.new (fields_text (refused_fields world.now.rehearsal steps.now))) }
{
    text.push_str(",\"refused\":[")?;
    let mut later = false;
    for step in steps {
        if let Some(refusal) = told_refusal(world, *step) {
            push_separator(text, ',', later)?;
            push_refusal(text, *step, refusal)?;
            later = true;
        }
    }
    text.push_str("]")
}

fn push_refusal(text: &mut String, step: Step, refusal: Refusal) -> Result<(), AllocError>
    ensures { OnOk result (Adds text.old text.new (compact_text (refusal_value step refusal))) }
{
    write!(text, "{{\"entry\":{step},\"refusal\":\"{refusal}\"}}")
}

// What a driver does next at the member, which has this waiting line.
#[tactic(auto, unfolding(crate::specs::JsonState::next_fields, json::proofs::OnLiterals::json_on_literals))]
fn push_next(
    alloc: Global,
    text: &mut String,
    world: &World,
    member: Member,
    line: &[Serial],
) -> Result<(), AllocError>
    requires { line.now ≡ line_of world.now.rehearsal member }
    ensures { OnOk result (Adds text.old text.new (fields_text (next_fields world.now.rehearsal member))) }
{
    let receipt = first_receipt(world, member, line);
    let steps = next_steps(alloc, world.next_local(member), receipt)?;
    push_steps_at(text, "next", &steps)
}
