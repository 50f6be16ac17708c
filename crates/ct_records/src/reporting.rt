//! From a world to its report.

ghost use Rattle.std.specs.Prelude.{◌≡◌, codes, OnOk, IfOk, IsTrue};
ghost use Rattle.ct_text.specs.Adds.{Adds};
ghost use Rattle.ct_names.specs.Group.{is_member};
ghost use Rattle.ct_records.specs.Outcome.{IsOutcome};
ghost use Rattle.ct_records.specs.Report.{line_text};
ghost use Rattle.ct_text.specs.Lists.{decisions_text, messages_text, table_text};
ghost use Rattle.ct_records.specs.Report.{standing_text, member_text, first_members, report_text};
ghost use Rattle.ct_world.specs.World.{member_of};

use ct_names::{Member, Message};
use ct_table::Table;
use ct_text::{push_decisions, push_messages, push_table};
use ct_world::World;
use std::alloc::{AllocError, Global};

/// The report of the world: the group, the counts of steps, envelopes and batches, and of each member whether it is up,
/// its last instance, what it received, decided and delivered, and its table. Takes time linear in the report's length
/// and in each member's last decided instance. The only error is that memory is refused.
#[tactic(auto, unfolding(crate::specs::Report::report_text))]
pub fn report(alloc: Global, world: &World) -> Result<Vec<u8>, AllocError>
    ensures text { IfOk result (λ bytes. bytes.items ≡ report_text world.now.rehearsal) }
    // The record is a run that ends in the state that is shown, that state is safe, and each table is its sequence's.
    ensures outcome { IsOutcome world.now.rehearsal }
{
    let mut text = String::new(alloc);
    let group = world.group();
    let n = group.n();
    let majority = group.majority();
    let cells = world.cells();
    let Some(first) = world.outcome(1) else {
        unreachable!()
    };
    let steps = first.record.len();
    let sent = world.sent();
    let posted = world.posted();
    write!(text, "group {n} majority {majority} cells {cells}\n")?;
    write!(text, "steps {steps} sent {sent} posted {posted}\n")?;
    push_members(&mut text, world)?;
    Ok(text.into_bytes())
}

fn push_members(text: &mut String, world: &World) -> Result<(), AllocError>
    ensures { OnOk result (Adds text.old text.new (first_members world.now.rehearsal world.now.rehearsal.setting.members)) }
{
    let n = world.group().n();
    for i in 0..n {
        push_member(text, world, i + 1)?;
    }
    Ok(())
}

#[tactic(auto, unfolding(crate::specs::Report::member_text))]
fn push_member(text: &mut String, world: &World, member: Member) -> Result<(), AllocError>
    requires { IsTrue (is_member world.now.rehearsal.setting.members member) }
    ensures { OnOk result (Adds text.old text.new (member_text world.now.rehearsal member)) }
{
    let Some(outcome) = world.outcome(member) else {
        unreachable!()
    };
    push_standing(text, world, member)?;
    push_message_line(text, "received", world.received(member).unwrap_or(&[]))?;
    push_decision_line(text, world, member)?;
    push_message_line(text, "delivered", outcome.delivered)?;
    push_table_line(text, outcome.table)
}

#[tactic(auto, unfolding(crate::specs::Report::standing_text))]
fn push_standing(text: &mut String, world: &World, member: Member) -> Result<(), AllocError>
    requires { IsTrue (is_member world.now.rehearsal.setting.members member) }
    ensures { OnOk result (Adds text.old text.new (standing_text world.now.rehearsal member)) }
{
    let state = if world.crashed(member) {
        "crashed"
    } else {
        "up"
    };
    let (instance, is_open) = world.instance(member).unwrap_or((0, false));
    let progress = if is_open { "open" } else { "idle" };
    write!(
        text,
        "member {member} {state} instance {instance} {progress}\n"
    )
}

#[tactic(auto, unfolding(crate::specs::Report::line_text))]
fn push_message_line(text: &mut String, word: &str, messages: &[Message]) -> Result<(), AllocError>
    ensures { OnOk result (Adds text.old text.new (line_text word.now (messages_text 32 messages.now))) }
{
    write!(text, "{word} ")?;
    push_messages(text, ' ', messages)?;
    text.push('\n')
}

#[tactic(auto, unfolding(crate::specs::Report::line_text))]
fn push_decision_line(text: &mut String, world: &World, member: Member) -> Result<(), AllocError>
    requires { IsTrue (is_member world.now.rehearsal.setting.members member) }
    ensures { OnOk result (Adds text.old text.new
        (line_text (codes "decided") (decisions_text (member_of world.now.rehearsal member).got))) }
{
    text.push_str("decided ")?;
    push_decisions(text, world, member)?;
    text.push('\n')
}

#[tactic(auto, unfolding(crate::specs::Report::line_text))]
fn push_table_line(text: &mut String, table: &Table) -> Result<(), AllocError>
    ensures { OnOk result (Adds text.old text.new (line_text (codes "table") (table_text table.now))) }
{
    text.push_str("table ")?;
    push_table(text, table)?;
    text.push('\n')
}
