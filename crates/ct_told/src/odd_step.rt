//! What is wrong with a step of a record.

ghost use Rattle.std.specs.Prelude.{◌≡◌, OnOk, option_map};
ghost use Rattle.serde_json.specs.View.{view};
ghost use Rattle.ct_model.specs.StepText.{step_entry};
ghost use Rattle.ct_text.specs.Adds.{Adds};
ghost use Rattle.ct_records.specs.Script.{since};
ghost use Rattle.ct_told.specs.OddSteps.{entry_text, example, known_text, later_text, name_at, named_text, no_step_text, operands_text};
ghost use Rattle.ct_told.specs.OddSteps.{step_line, version_of, wants_text};

use crate::given_name::push_given;
use ct_grammar::push_act_hint;
use ct_model::Step;
use ct_names::{Command, Member};
use serde_json::Value;
use std::alloc::AllocError;

// The first version with steps that lose and repeat, and the first with members that follow, which is the last.
const LOSSY: u64 = 2;

const LATEST: u64 = 3;

// The member of examples.
const MEMBER: Member = 2;

/// Puts behind the line what is wrong with the step of this number, counted from 1.
pub(crate) fn push_step_fault(line: &mut String, i: usize, value: &Value) -> Result<(), AllocError>
    ensures { OnOk result (Adds line.old line.new (step_line i (view value.now))) }
{
    write!(line, "record: step {i}: ")?;
    push_entry(line, i, value)
}

// The name of the step of this number, where its entry is a list that begins with a text.
#[tactic(auto, unfolding(crate::specs::OddSteps::name_at))]
fn name_at(i: usize, value: &Value) -> Option<&str>
    ensures { option_map (λ name. name.now) result ≡ name_at i (view value.now) }
{
    value
        .get("steps")?
        .get(i.saturating_sub(1))?
        .get(0usize)?
        .as_str()
}

// The version of the record.
#[tactic(auto, unfolding(crate::specs::OddSteps::version_of))]
fn version_of(value: &Value) -> u64
    ensures { result ≡ version_of (view value.now) }
{
    match value.get("version") {
        None => LATEST,
        Some(version) => version.as_u64().unwrap_or(LATEST),
    }
}

fn push_entry(line: &mut String, i: usize, value: &Value) -> Result<(), AllocError>
    ensures { OnOk result (Adds line.old line.new (entry_text (version_of (view value.now)) (name_at i (view value.now)))) }
{
    match name_at(i, value) {
        None => line.push_str(
            "a list that begins with the name of a step is wanted, as [\"begin\",2]",
        ),
        Some(name) => push_named(line, version_of(value), name),
    }
}

fn push_named(line: &mut String, version: u64, name: &str) -> Result<(), AllocError>
    ensures { OnOk result (Adds line.old line.new (named_text version name.now (example name.now))) }
{
    match example(name) {
        None => push_no_step(line, name),
        Some(step) => push_known(line, version, name, step),
    }
}

// Of a name that no step has.
#[tactic(auto, unfolding(crate::specs::OddSteps::no_step_text))]
fn push_no_step(line: &mut String, name: &str) -> Result<(), AllocError>
    ensures { OnOk result (Adds line.old line.new (no_step_text name.now)) }
{
    push_given(line, "", "name", name)?;
    line.push_str(" is no step")?;
    push_act_hint(line, name)
}

// Of a step of this name.
#[tactic(auto, unfolding(crate::specs::OddSteps::known_text))]
fn push_known(line: &mut String, version: u64, name: &str, step: Step) -> Result<(), AllocError>
    ensures { OnOk result (Adds line.old line.new (known_text version name.now step)) }
{
    if since(step) <= version {
        push_wants(line, name, step)
    } else {
        push_later(line, version, name)
    }
}

// Of a step that records of the version don't have.
fn push_later(line: &mut String, version: u64, name: &str) -> Result<(), AllocError>
    ensures { OnOk result (Adds line.old line.new (later_text version name.now)) }
{
    write!(line, "{name} is no step of version {version}")
}

// Of a step behind whose name another thing stands.
fn push_wants(line: &mut String, name: &str, step: Step) -> Result<(), AllocError>
    ensures { OnOk result (Adds line.old line.new (wants_text name.now step)) }
{
    let operands = operands(step);
    write!(line, "{name} wants {operands}, as {step}")
}

// The first version of records that has the step.
fn since(step: Step) -> u64
    ensures { result ≡ since step }
{
    match step {
        Step::Lose(..) | Step::Repeat(..) => LOSSY,
        Step::Follow(_) => LATEST,
        _ => 1,
    }
}

// What stands behind the name of the step.
fn operands(step: Step) -> &'static str
    ensures { result.now ≡ operands_text (step_entry step).rest }
{
    match step {
        Step::Submit(..) => "a member (0 to 255) and a command (set, add or copy)",
        Step::Choose(..) => "a member and a sender (0 to 255 each)",
        Step::Receive(..) | Step::Postpone(..) | Step::Lose(..) | Step::Repeat(..) => {
            "a member (0 to 255) and a serial (0 to 4294967295)"
        }
        _ => "a member (0 to 255)",
    }
}

// The step of this name in the examples.
#[tactic(auto, unfolding(crate::specs::OddSteps::example))]
fn example(name: &str) -> Option<Step>
    ensures { result ≡ example name.now }
{
    match name {
        "submit" => Some(Step::Submit(MEMBER, Command::Set(0, 7))),
        "receive" => Some(Step::Receive(MEMBER, 7)),
        "begin" => Some(Step::Begin(MEMBER)),
        "enter" => Some(Step::Enter(MEMBER)),
        "choose" => Some(Step::Choose(MEMBER, 1)),
        "adopt" => Some(Step::Adopt(MEMBER)),
        "suspect" => Some(Step::Suspect(MEMBER)),
        "conclude" => Some(Step::Conclude(MEMBER)),
        "deliver" => Some(Step::Deliver(MEMBER)),
        "follow" => Some(Step::Follow(MEMBER)),
        "crash" => Some(Step::Crash(MEMBER)),
        "postpone" => Some(Step::Postpone(MEMBER, 7)),
        "lose" => Some(Step::Lose(MEMBER, 7)),
        "repeat" => Some(Step::Repeat(MEMBER, 7)),
        _ => None,
    }
}
