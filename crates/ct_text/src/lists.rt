//! Lists in texts, with a separator between each two of their pieces; a dash where there are none.

ghost use Rattle.std.specs.Prelude.{◌≡◌, ◌<◌, [], ◌∷◌, if◌then◌else◌, OnOk, IsTrue, slice_index};
ghost use Rattle.ct_names.specs.Group.{is_member};
ghost use Rattle.ct_text.specs.Adds.{Adds};
ghost use Rattle.ct_text.specs.Lists.{decision_text, decisions_text, first_in, list_text, messages_text, nonzero, register_text, table_text};
ghost use Rattle.ct_world.specs.World.{member_of};

use crate::separator::push_separator;
use ct_names::{Instance, MAX_MEMBERS, Member, MemberSet, Message};
use ct_table::Table;
use ct_world::World;
use std::alloc::AllocError;

/// Appends the messages, with the separator, a character of ASCII, between each two; a dash where there are none.
pub fn push_messages(
    text: &mut String,
    separator: char,
    messages: &[Message],
) -> Result<(), AllocError>
    requires { separator < 128 }
    ensures { OnOk result (Adds text.old text.new (messages_text separator messages.now)) }
{
    if messages.is_empty() {
        return text.push('-');
    }
    for (i, message) in messages.iter().enumerate() {
        push_separator(text, separator, i > 0)?;
        write!(text, "{message}")?;
    }
    Ok(())
}

/// Appends the decisions that a member of the group got, with spaces; a dash where there are none.
pub fn push_decisions(text: &mut String, world: &World, member: Member) -> Result<(), AllocError>
    requires { IsTrue (is_member world.now.rehearsal.setting.members member) }
    ensures { OnOk result (Adds text.old text.new (decisions_text (member_of world.now.rehearsal member).got)) }
{
    let last = world.last_decided(member).unwrap_or(0);
    let mut later = false;
    for i in 0..last {
        if let Some(messages) = world.decided(member, i + 1) {
            push_separator(text, ' ', later)?;
            push_decision(text, i + 1, messages)?;
            later = true;
        }
    }
    push_dash(text, later)
}

#[tactic(auto, unfolding(crate::specs::Lists::decision_text))]
fn push_decision(
    text: &mut String,
    instance: Instance,
    messages: &[Message],
) -> Result<(), AllocError>
    ensures { OnOk result (Adds text.old text.new (decision_text instance messages.now)) }
{
    write!(text, "{instance}:")?;
    push_messages(text, ',', messages)
}

/// Appends the members of the set, with the separator, a character of ASCII, between each two; a dash where there are none.
pub fn push_members_of(text: &mut String, separator: char, set: MemberSet) -> Result<(), AllocError>
    requires { separator < 128 }
    ensures { OnOk result (Adds text.old text.new (list_text separator (first_in set MAX_MEMBERS))) }
{
    let mut later = false;
    for i in 0..MAX_MEMBERS {
        let member = i + 1;
        if set.contains(member) {
            push_separator(text, separator, later)?;
            write!(text, "{member}")?;
            later = true;
        }
    }
    push_dash(text, later)
}

/// Appends the registers of the table that aren't 0, with spaces; a dash where there are none.
pub fn push_table(text: &mut String, table: &Table) -> Result<(), AllocError>
    ensures { OnOk result (Adds text.old text.new (table_text table.now)) }
{
    let mut later = false;
    for register in 0..16u8 {
        if let Some(value) = value_of(table, register) {
            push_separator(text, ' ', later)?;
            push_register(text, register, value)?;
            later = true;
        }
    }
    push_dash(text, later)
}

// What the register holds, where that is not 0.
fn value_of(table: &Table, register: u8) -> Option<u64>
    ensures { result ≡ nonzero (slice_index table.now register) }
{
    let value = table.get(register).unwrap_or(0);
    (value != 0).then_some(value)
}

#[tactic(auto, unfolding(crate::specs::Lists::register_text))]
fn push_register(text: &mut String, register: u8, value: u64) -> Result<(), AllocError>
    ensures { OnOk result (Adds text.old text.new (register_text register value)) }
{
    write!(text, "{register}={value}")
}

// A dash where no piece stands before.
fn push_dash(text: &mut String, later: bool) -> Result<(), AllocError>
    ensures { OnOk result (Adds text.old text.new ((if later then [] else (45 ∷ [])))) }
{
    if later { Ok(()) } else { text.push('-') }
}
