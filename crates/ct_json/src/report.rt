//! The report of a world as JSON.

ghost use Rattle.std.specs.Prelude.{◌≡◌, [], ◌∷◌, codes, OnOk, IfOk, IsTrue};
ghost use Rattle.serde_json.specs.Data.{boolean};
ghost use Rattle.serde_json.specs.Written.{compact_text};
ghost use Rattle.ct_text.specs.Adds.{Adds};
ghost use Rattle.ct_names.specs.Group.{is_member};
ghost use Rattle.ct_records.specs.Outcome.{IsOutcome};
ghost use Rattle.ct_json.specs.Fields.{IsPlain, fields_text, opened};
ghost use Rattle.ct_json.specs.Json.{counts_fields, decision_value, decisions_fields, group_fields, history_fields, member_value};
ghost use Rattle.ct_json.specs.Json.{members_fields, message_value, messages_at, messages_value, register_value, report_json};
ghost use Rattle.ct_json.specs.Json.{standing_fields, table_fields};
ghost use Rattle.ct_world.specs.World.{member_of};

use ct_names::{Instance, Member, Message, REGISTERS};
use ct_table::Table;
use ct_text::push_separator;
use ct_world::World;
use std::alloc::{AllocError, Global};

/// The report of the world as one JSON object and a line feed, with what the report of `ct replay` has, and the bound. Takes
/// time linear in its length and in each member's last decided instance. The only error is that memory is refused.
pub fn report_json(alloc: Global, world: &World) -> Result<Vec<u8>, AllocError>
    ensures text { IfOk result (λ bytes. bytes.items ≡ report_json world.now.rehearsal) }
    // The record is a run that ends in the state that is shown, that state is safe, and each table is its sequence's.
    ensures outcome { IsOutcome world.now.rehearsal }
{
    let mut text = String::new(alloc);
    // For its clauses: each table is that of its sequence.
    let _ = world.outcome(1);
    push_report(&mut text, world)?;
    Ok(text.into_bytes())
}

#[tactic(auto, using(crate::proofs::Fields::pieces), unfolding(crate::specs::Json::report_json, crate::specs::Json::report_value))]
fn push_report(text: &mut String, world: &World) -> Result<(), AllocError>
    ensures { OnOk result (Adds text.old text.new (report_json world.now.rehearsal)) }
{
    push_group(text, world)?;
    push_counts(text, world)?;
    push_members(text, world)?;
    text.push_str("}\n")
}

#[tactic(auto, unfolding(crate::specs::Json::group_fields, json::proofs::OnLiterals::json_on_literals))]
pub(crate) fn push_group(text: &mut String, world: &World) -> Result<(), AllocError>
    ensures { OnOk result (Adds text.old text.new (opened (group_fields world.now.rehearsal))) }
{
    let group = world.group();
    let n = group.n();
    let majority = group.majority();
    let cells = world.cells();
    let bound = world.bound();
    write!(
        text,
        "{{\"group\":{n},\"majority\":{majority},\"cells\":{cells},\"batch\":{bound}"
    )
}

#[tactic(auto, unfolding(crate::specs::Json::counts_fields, json::proofs::OnLiterals::json_on_literals))]
pub(crate) fn push_counts(text: &mut String, world: &World) -> Result<(), AllocError>
    ensures { OnOk result (Adds text.old text.new (fields_text (counts_fields world.now.rehearsal))) }
{
    let steps = world.record().len();
    let sent = world.sent();
    let posted = world.posted();
    write!(
        text,
        ",\"steps\":{steps},\"sent\":{sent},\"posted\":{posted}"
    )
}

fn push_members(text: &mut String, world: &World) -> Result<(), AllocError>
    ensures { OnOk result (Adds text.old text.new (fields_text (members_fields world.now.rehearsal))) }
{
    text.push_str(",\"members\":[")?;
    let n = world.group().n();
    let mut later = false;
    for i in 0..n {
        push_separator(text, ',', later)?;
        push_member(text, world, i + 1)?;
        later = true;
    }
    text.push_str("]")
}

#[tactic(auto, using(crate::proofs::Fields::pieces), unfolding(crate::specs::Json::member_value))]
fn push_member(text: &mut String, world: &World, member: Member) -> Result<(), AllocError>
    requires { IsTrue (is_member world.now.rehearsal.setting.members member) }
    ensures { OnOk result (Adds text.old text.new (compact_text (member_value world.now.rehearsal member))) }
{
    push_standing(text, world, member)?;
    push_history(text, world, member)?;
    text.push_str("}")
}

// What the member received, decided and delivered, and its table.
#[tactic(auto, using(crate::proofs::Fields::pieces), unfolding(crate::specs::Json::history_fields, json::proofs::OnLiterals::json_on_literals))]
pub(crate) fn push_history(
    text: &mut String,
    world: &World,
    member: Member,
) -> Result<(), AllocError>
    requires { IsTrue (is_member world.now.rehearsal.setting.members member) }
    ensures { OnOk result (Adds text.old text.new (fields_text (history_fields world.now.rehearsal member))) }
{
    let Some(outcome) = world.outcome(member) else {
        unreachable!()
    };
    push_messages_at(text, "received", world.received(member).unwrap_or(&[]))?;
    push_decisions(text, world, member)?;
    push_messages_at(text, "delivered", outcome.delivered)?;
    push_table(text, outcome.table)
}

#[tactic(auto, unfolding(crate::specs::Json::standing_fields, json::proofs::OnLiterals::json_on_literals))]
pub(crate) fn push_standing(
    text: &mut String,
    world: &World,
    member: Member,
) -> Result<(), AllocError>
    requires { IsTrue (is_member world.now.rehearsal.setting.members member) }
    ensures { OnOk result (Adds text.old text.new (opened (standing_fields world.now.rehearsal member))) }
{
    let up = truth(!world.crashed(member));
    let (instance, is_open) = world.instance(member).unwrap_or((0, false));
    let open = truth(is_open);
    write!(
        text,
        "{{\"member\":{member},\"up\":{up},\"instance\":{instance},\"open\":{open}"
    )
}

// The word for it.
fn truth(holds: bool) -> &'static str
    ensures { result.now ≡ compact_text (boolean holds) }
{
    if holds { "true" } else { "false" }
}

pub(crate) fn push_messages_at(
    text: &mut String,
    key: &str,
    messages: &[Message],
) -> Result<(), AllocError>
    requires { IsPlain key.now }
    ensures { OnOk result (Adds text.old text.new (fields_text (messages_at key.now messages.now))) }
{
    write!(text, ",\"{key}\":")?;
    push_messages(text, messages)
}

pub(crate) fn push_message(text: &mut String, message: Message) -> Result<(), AllocError>
    ensures { OnOk result (Adds text.old text.new (fields_text ((codes "message", message_value message) ∷ []))) }
{
    write!(text, ",\"message\":\"{message}\"")
}

pub(crate) fn push_messages(text: &mut String, messages: &[Message]) -> Result<(), AllocError>
    ensures { OnOk result (Adds text.old text.new (compact_text (messages_value messages.now))) }
{
    text.push_str("[")?;
    for (i, message) in messages.iter().enumerate() {
        push_separator(text, ',', i > 0)?;
        write!(text, "\"{message}\"")?;
    }
    text.push_str("]")
}

fn push_decisions(text: &mut String, world: &World, member: Member) -> Result<(), AllocError>
    requires { IsTrue (is_member world.now.rehearsal.setting.members member) }
    ensures { OnOk result (Adds text.old text.new (fields_text (decisions_fields (member_of world.now.rehearsal member).got))) }
{
    text.push_str(",\"decided\":[")?;
    let last = world.last_decided(member).unwrap_or(0);
    let mut later = false;
    for i in 0..last {
        if let Some(messages) = world.decided(member, i + 1) {
            push_separator(text, ',', later)?;
            push_decision(text, i + 1, messages)?;
            later = true;
        }
    }
    text.push_str("]")
}

fn push_decision(
    text: &mut String,
    instance: Instance,
    messages: &[Message],
) -> Result<(), AllocError>
    ensures { OnOk result (Adds text.old text.new (compact_text (decision_value instance messages.now))) }
{
    write!(text, "{{\"instance\":{instance},\"messages\":")?;
    push_messages(text, messages)?;
    text.push_str("}")
}

fn push_table(text: &mut String, table: &Table) -> Result<(), AllocError>
    ensures { OnOk result (Adds text.old text.new (fields_text (table_fields table.now))) }
{
    text.push_str(",\"table\":[")?;
    let mut later = false;
    for register in 0..REGISTERS {
        push_separator(text, ',', later)?;
        push_register(text, table, register)?;
        later = true;
    }
    text.push_str("]")
}

// What the register holds.
fn push_register(text: &mut String, table: &Table, register: u8) -> Result<(), AllocError>
    ensures { OnOk result (Adds text.old text.new (compact_text (register_value table.now register))) }
{
    let value = table.get(register).unwrap_or(0);
    write!(text, "{value}")
}
