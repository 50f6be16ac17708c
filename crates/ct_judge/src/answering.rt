//! What a session answers to lines that are taken.

ghost use Rattle.std.specs.Prelude.{◌≡◌, ◌≤◌, OnOk, IsTrue};
ghost use Rattle.ct_text.specs.Adds.{Adds};
ghost use Rattle.ct_names.specs.Group.{is_member};
ghost use Rattle.ct_judge.specs.Answers.{asked_text, enabled_text, if_known, group_limits, limits_answer, member_limits, next_answer};
ghost use Rattle.ct_judge.specs.Answers.{ok_text, receipt_of};
ghost use Rattle.ct_judge.specs.Answers.{record_answer, report_answer, state_answer, used_text, waiting_answer};

use crate::naming::push_letters;
use crate::printing::push_bytes;
use crate::steps::push_steps;
use crate::wording::push_number;
use ct_grammar::Question;
use ct_json::report_json;
use ct_model::Step;
use ct_names::{
    MAX_ENVELOPES, MAX_INSTANCES, MAX_ROUNDS, MAX_STEPS, MAX_SUBMISSIONS, Member, Serial,
};
use ct_play::{Stage, first_near, waiting_at};
use ct_records::write_record;
use ct_show::{enabled_steps, first_receipt, next_steps, push_member_facts};
use ct_world::World;
use std::alloc::{AllocError, Global};

// The serials of what was sent since so many envelopes were.
#[tactic(auto, unfolding(crate::specs::Answers::ok_text))]
pub(crate) fn push_ok(text: &mut String, before: u32, now: u32) -> Result<(), AllocError>
    requires { before ≤ 1000000 }
    ensures { OnOk result (Adds text.old text.new (ok_text before now)) }
{
    let first = before + 1;
    if now == before {
        text.push_str("ok\n")
    } else if now == first {
        write!(text, "ok {now}\n")
    } else {
        write!(text, "ok {first}-{now}\n")
    }
}

// The answer to a question.
pub(crate) fn push_answer(
    alloc: Global,
    text: &mut String,
    stage: &Stage,
    question: Question,
) -> Result<(), AllocError>
    ensures { OnOk result (Adds text.old text.new (asked_text stage.now question)) }
{
    match question {
        Question::Enabled(member) => push_enabled(text, stage, member),
        Question::Next(member) => push_next_known(text, stage, member),
        Question::State(member) => push_state(text, stage.world(), member),
        Question::Waiting(member) => push_waiting(text, stage, member),
        Question::Report => push_report(alloc, text, stage.world()),
        Question::Record => push_record(alloc, text, stage.world()),
        Question::Limits => push_limits(text, stage.world()),
    }
}

// The steps that the member may take by itself.
#[tactic(auto, unfolding(crate::specs::Answers::enabled_text))]
fn push_enabled(text: &mut String, stage: &Stage, member: Member) -> Result<(), AllocError>
    ensures { OnOk result (Adds text.old text.new (enabled_text stage.now.rehearsal member)) }
{
    let steps = enabled_steps(*text.allocator(), stage.world(), member)?;
    text.push_str("enabled ")?;
    push_steps(text, stage, ", ", &steps)?;
    text.push_str("\n")
}

// The same for what a driver does next at the member.
fn push_next_known(text: &mut String, stage: &Stage, member: Member) -> Result<(), AllocError>
    ensures { OnOk result (Adds text.old text.new (if_known stage.now.rehearsal member (next_answer stage.now member))) }
{
    if stage.world().group().has(member) {
        push_next(text, stage, member)
    } else {
        text.push_str("no member\n")
    }
}

// What a driver does next at the member.
#[tactic(auto, unfolding(crate::specs::Answers::next_answer))]
fn push_next(text: &mut String, stage: &Stage, member: Member) -> Result<(), AllocError>
    requires { IsTrue (is_member stage.now.rehearsal.setting.members member) }
    ensures { OnOk result (Adds text.old text.new (next_answer stage.now member)) }
{
    let world = stage.world();
    let receipt = receipt_of(world, member, first_near(stage, member));
    let steps = next_steps(*text.allocator(), world.next_local(member), receipt)?;
    text.push_str("next ")?;
    push_steps(text, stage, " or ", &steps)?;
    text.push_str("\n")
}

// The receipt of the envelope of the serial, where it is allowed.
fn receipt_of(world: &World, member: Member, serial: Option<Serial>) -> Option<Step>
    ensures { result ≡ receipt_of world.now.rehearsal member serial }
{
    first_receipt(world, member, &[serial?])
}

// Where the member stands.
#[tactic(auto, unfolding(crate::specs::Answers::state_answer))]
fn push_state(text: &mut String, world: &World, member: Member) -> Result<(), AllocError>
    ensures { OnOk result (Adds text.old text.new (state_answer world.now.rehearsal member)) }
{
    text.push_str("state ")?;
    push_member_facts(text, world, member)?;
    text.push_str("\n")
}

// What waits at the member.
#[tactic(auto, unfolding(crate::specs::Answers::waiting_answer))]
fn push_waiting(text: &mut String, stage: &Stage, member: Member) -> Result<(), AllocError>
    ensures { OnOk result (Adds text.old text.new (waiting_answer stage.now.rehearsal member)) }
{
    text.push_str("waiting ")?;
    push_letters(text, stage, waiting_at(stage, member))?;
    text.push_str("\n")
}

// The report.
#[tactic(auto, unfolding(crate::specs::Answers::report_answer))]
fn push_report(alloc: Global, text: &mut String, world: &World) -> Result<(), AllocError>
    ensures { OnOk result (Adds text.old text.new (report_answer world.now.rehearsal)) }
{
    let report = report_json(alloc, world)?;
    text.push_str("report ")?;
    push_bytes(text, &report)
}

// The record so far.
#[tactic(auto, unfolding(crate::specs::Answers::record_answer))]
fn push_record(alloc: Global, text: &mut String, world: &World) -> Result<(), AllocError>
    ensures { OnOk result (Adds text.old text.new (record_answer world.now.rehearsal)) }
{
    let record = write_record(alloc, world)?;
    text.push_str("record ")?;
    push_bytes(text, &record)?;
    text.push_str("\n")
}

// The limits of a member, those of the group, and how much of these is used.
#[tactic(auto, unfolding(crate::specs::Answers::limits_answer))]
fn push_limits(text: &mut String, world: &World) -> Result<(), AllocError>
    ensures { OnOk result (Adds text.old text.new (limits_answer world.now.rehearsal)) }
{
    push_member_limits(text, "limits submissions ", ", instances ", ", rounds ")?;
    push_group_limits(text, world, ", envelopes ", ", cells ", ", steps ")?;
    text.push_str("\n")
}

// The limits of a member, each behind its words.
#[tactic(auto, unfolding(crate::specs::Answers::member_limits))]
fn push_member_limits(
    text: &mut String,
    submissions: &str,
    instances: &str,
    rounds: &str,
) -> Result<(), AllocError>
    ensures { OnOk result (Adds text.old text.new (member_limits submissions.now instances.now rounds.now)) }
{
    push_number(text, submissions, MAX_SUBMISSIONS as usize)?;
    push_number(text, instances, MAX_INSTANCES as usize)?;
    push_number(text, rounds, MAX_ROUNDS as usize)
}

// Those of the group, and how much of them is used.
#[tactic(auto, unfolding(crate::specs::Answers::group_limits))]
fn push_group_limits(
    text: &mut String,
    world: &World,
    envelopes: &str,
    cells: &str,
    steps: &str,
) -> Result<(), AllocError>
    ensures { OnOk result (Adds text.old text.new (group_limits world.now.rehearsal envelopes.now cells.now steps.now)) }
{
    let most = usize::from(world.cells());
    push_used(text, envelopes, world.sent() as usize, MAX_ENVELOPES)?;
    push_used(text, cells, usize::from(world.posted()), most)?;
    push_used(text, steps, world.record().len(), MAX_STEPS)
}

// How much of the limit is used.
#[tactic(auto, unfolding(crate::specs::Answers::used_text))]
fn push_used(text: &mut String, words: &str, used: usize, limit: usize) -> Result<(), AllocError>
    ensures { OnOk result (Adds text.old text.new (used_text words.now used limit)) }
{
    push_number(text, words, used)?;
    push_number(text, " of ", limit)
}
