//! The line of a step as JSON: an object, and a line feed. The world is the one after the step, or before it where it is refused.

ghost use Rattle.std.specs.Prelude.{◌≡◌, ◌≤◌, [], ◌∷◌, codes, OnOk, option_map};
ghost use Rattle.serde_json.specs.Written.{compact_text};
ghost use Rattle.ct_model.specs.StepText.{step_entry};
ghost use Rattle.ct_records.specs.Values.{command_data, num};
ghost use Rattle.ct_text.specs.Adds.{Adds};
ghost use Rattle.ct_json.specs.Fields.{IsPlain, fields_text, opened};
ghost use Rattle.ct_json.specs.JsonEnvelopes.{envelope_value};
ghost use Rattle.ct_json.specs.JsonSteps.{argument_fields, concluded_fields, decided_fields, delivered_fields, estimated_fields};
ghost use Rattle.ct_json.specs.JsonSteps.{facts_fields, head_fields, held, leaving_fields, left_fields, letter_facts, member_facts};
ghost use Rattle.ct_json.specs.JsonSteps.{message_fields, message_in, outcome_fields, proposal_fields, refused_json, round_fields};
ghost use Rattle.ct_json.specs.JsonSteps.{instance_fields, missing_fields, refusal_fields, serial_facts, step_json, valued_fields};

use crate::json_envelopes::{push_envelope, push_estimate_at, push_sent_at};
use crate::json_parts::{push_part, push_replies};
use crate::report::{push_message, push_messages_at};
use ct_model::Step;
use ct_names::{Command, Instance, MAX_ENVELOPES, Member, Message, Refusal, Round, Serial};
use ct_show::last_taking;
use ct_text::{coordinator_of, instance_of, round_of};
use ct_world::{Letter, Wire, World};
use std::alloc::AllocError;

/// Appends the line of the world's last step, which has this number, counted from 1; so many envelopes had been sent before it.
#[tactic(auto, using(crate::proofs::Fields::pieces), unfolding(crate::specs::JsonSteps::step_json, crate::specs::JsonSteps::value_in))]
pub fn push_step_json(
    text: &mut String,
    world: &World,
    before: u32,
    number: usize,
    step: Step,
) -> Result<(), AllocError>
    requires { before ≤ MAX_ENVELOPES }
    ensures { OnOk result (Adds text.old text.new (step_json world.now.rehearsal before number step)) }
{
    push_head(text, number, step)?;
    push_arguments(text, world, step)?;
    push_outcome(text, world, before, step)?;
    push_sent_at(text, world, before)?;
    text.push_str("}\n")
}

/// Appends the line of the step of this number, counted from 1, which is refused so in the world.
#[tactic(auto, using(crate::proofs::Fields::pieces), unfolding(crate::specs::JsonSteps::refused_json, crate::specs::JsonSteps::refused_value))]
pub fn push_refused_json(
    text: &mut String,
    world: &World,
    number: usize,
    step: Step,
    refusal: Refusal,
) -> Result<(), AllocError>
    ensures { OnOk result (Adds text.old text.new (refused_json world.now.rehearsal number step refusal)) }
{
    push_head(text, number, step)?;
    push_arguments(text, world, step)?;
    push_refusal(text, refusal)?;
    push_facts(text, world, step, refusal)?;
    text.push_str("}\n")
}

fn push_refusal(text: &mut String, refusal: Refusal) -> Result<(), AllocError>
    ensures { OnOk result (Adds text.old text.new (fields_text (refusal_fields refusal))) }
{
    write!(text, ",\"refusal\":\"{refusal}\"")
}

// The number of the step, its member and its name.
fn push_head(text: &mut String, number: usize, step: Step) -> Result<(), AllocError>
    ensures { OnOk result (Adds text.old text.new (opened (head_fields number step))) }
{
    let member = step.member();
    let name = name_of(step);
    write!(
        text,
        "{{\"number\":{number},\"member\":{member},\"step\":\"{name}\""
    )
}

// The step's name in a record.
fn name_of(step: Step) -> &'static str
    ensures { result.now ≡ (step_entry step).name }
{
    match step {
        Step::Submit(_, _) => "submit",
        Step::Receive(_, _) => "receive",
        Step::Begin(_) => "begin",
        Step::Enter(_) => "enter",
        Step::Choose(_, _) => "choose",
        Step::Adopt(_) => "adopt",
        Step::Suspect(_) => "suspect",
        Step::Conclude(_) => "conclude",
        Step::Deliver(_) => "deliver",
        Step::Follow(_) => "follow",
        Step::Crash(_) => "crash",
        Step::Postpone(_, _) => "postpone",
        Step::Lose(_, _) => "lose",
        Step::Repeat(_, _) => "repeat",
    }
}

// The command of the step, the member that it names, or the envelope of the serial that it names.
#[tactic(auto, unfolding(crate::specs::JsonSteps::argument_fields))]
fn push_arguments(text: &mut String, world: &World, step: Step) -> Result<(), AllocError>
    ensures { OnOk result (Adds text.old text.new (fields_text (argument_fields world.now.rehearsal step))) }
{
    match step {
        Step::Submit(_, command) => push_command(text, command),
        Step::Choose(_, from) => push_from(text, from),
        Step::Receive(_, serial) => push_envelope_at(text, world, serial),
        Step::Postpone(_, serial) => push_envelope_at(text, world, serial),
        Step::Lose(_, serial) => push_envelope_at(text, world, serial),
        Step::Repeat(_, serial) => push_envelope_at(text, world, serial),
        _ => Ok(()),
    }
}

// The command as a record has it.
#[tactic(auto, unfolding(json::proofs::OnLiterals::json_on_literals))]
fn push_command(text: &mut String, command: Command) -> Result<(), AllocError>
    ensures { OnOk result (Adds text.old text.new (fields_text ((codes "command", command_data command) ∷ []))) }
{
    match command {
        Command::Set(register, value) => {
            write!(text, ",\"command\":[\"set\",{register},{value}]")
        }
        Command::Add(register, amount) => {
            write!(text, ",\"command\":[\"add\",{register},{amount}]")
        }
        Command::Copy(from, to) => write!(text, ",\"command\":[\"copy\",{from},{to}]"),
    }
}

#[tactic(auto, unfolding(json::proofs::OnLiterals::json_on_literals))]
fn push_from(text: &mut String, from: Member) -> Result<(), AllocError>
    ensures { OnOk result (Adds text.old text.new (fields_text ((codes "from", num from) ∷ []))) }
{
    write!(text, ",\"from\":{from}")
}

fn push_envelope_at(text: &mut String, world: &World, serial: Serial) -> Result<(), AllocError>
    ensures { OnOk result (Adds text.old text.new
        (fields_text ((codes "envelope", envelope_value world.now.rehearsal serial) ∷ []))) }
{
    text.push_str(",\"envelope\":")?;
    push_envelope(text, None, world, serial)
}

// What the step came to, where so many envelopes had been sent before it.
#[tactic(auto, unfolding(crate::specs::JsonSteps::outcome_fields))]
fn push_outcome(text: &mut String, world: &World, before: u32, step: Step) -> Result<(), AllocError>
    requires { before ≤ MAX_ENVELOPES }
    ensures { OnOk result (Adds text.old text.new (fields_text (outcome_fields world.now.rehearsal before step))) }
{
    match step {
        Step::Submit(_, _) => push_carried(text, world.letter(before + 1)),
        Step::Begin(member) => push_proposal(text, world, member),
        Step::Enter(member) => push_round(text, world, member),
        Step::Choose(member, from) => {
            push_estimated(text, world, member, world.heard_from(member, from))
        }
        Step::Adopt(member) => push_estimated(text, world, member, world.estimate(member)),
        Step::Suspect(member) => push_estimated(text, world, member, world.estimate(member)),
        Step::Conclude(member) => push_concluded(text, world, before, member),
        Step::Deliver(member) => push_delivered(text, world, member),
        Step::Follow(member) => push_delivered(text, world, member),
        _ => Ok(()),
    }
}

// The message that the envelope carries, where it carries one.
fn push_carried(text: &mut String, letter: Option<Letter>) -> Result<(), AllocError>
    ensures { OnOk result (Adds text.old text.new (fields_text (message_in letter))) }
{
    match letter {
        None => Ok(()),
        Some(letter) => push_message_of(text, &letter.wire),
    }
}

fn push_message_of(text: &mut String, wire: &Wire) -> Result<(), AllocError>
    ensures { OnOk result (Adds text.old text.new (fields_text (message_fields wire.now))) }
{
    match *wire {
        Wire::Data(message) => push_message(text, message),
        _ => Ok(()),
    }
}

// The value that the member holds; no message where it holds none.
#[tactic(auto, unfolding(crate::specs::JsonSteps::held))]
fn held(world: &World, member: Member) -> &[Message]
    ensures { result.now ≡ held world.now.rehearsal member }
{
    match world.estimate(member) {
        None => &[],
        Some((value, _)) => value,
    }
}

// The instance, and messages at a key.
#[tactic(auto, using(crate::proofs::Fields::pieces))]
fn push_valued(
    text: &mut String,
    key: &str,
    instance: Instance,
    messages: &[Message],
) -> Result<(), AllocError>
    requires { IsPlain key.now }
    ensures { OnOk result (Adds text.old text.new (fields_text (valued_fields key.now instance messages.now))) }
{
    push_instance(text, instance)?;
    push_messages_at(text, key, messages)
}

#[tactic(auto, unfolding(crate::specs::JsonSteps::instance_fields, json::proofs::OnLiterals::json_on_literals))]
fn push_instance(text: &mut String, instance: Instance) -> Result<(), AllocError>
    ensures { OnOk result (Adds text.old text.new (fields_text (instance_fields instance))) }
{
    write!(text, ",\"instance\":{instance}")
}

#[tactic(auto, unfolding(crate::specs::JsonSteps::proposal_fields, json::proofs::OnLiterals::json_on_literals))]
fn push_proposal(text: &mut String, world: &World, member: Member) -> Result<(), AllocError>
    ensures { OnOk result (Adds text.old text.new (fields_text (proposal_fields world.now.rehearsal member))) }
{
    push_valued(
        text,
        "value",
        instance_of(world, member),
        held(world, member),
    )
}

// The batch of the instance, which the member delivered.
#[tactic(auto, unfolding(crate::specs::JsonSteps::delivered_fields, crate::specs::JsonSteps::batch, json::proofs::OnLiterals::json_on_literals))]
fn push_delivered(text: &mut String, world: &World, member: Member) -> Result<(), AllocError>
    ensures { OnOk result (Adds text.old text.new (fields_text (delivered_fields world.now.rehearsal member))) }
{
    let instance = instance_of(world, member);
    let batch = world.batch(instance).unwrap_or(&[]);
    push_valued(text, "delivered", instance, batch)
}

// The instance and the round that the member is in, and the coordinator.
#[tactic(auto, unfolding(crate::specs::JsonSteps::round_fields, json::proofs::OnLiterals::json_on_literals))]
fn push_round(text: &mut String, world: &World, member: Member) -> Result<(), AllocError>
    ensures { OnOk result (Adds text.old text.new (fields_text (round_fields world.now.rehearsal member))) }
{
    let instance = instance_of(world, member);
    let round = round_of(world, member);
    let coordinator = coordinator_of(world, member);
    write!(
        text,
        ",\"instance\":{instance},\"round\":{round},\"coordinator\":{coordinator}"
    )
}

// The same, and the estimate.
#[tactic(auto, using(crate::proofs::Fields::pieces), unfolding(crate::specs::JsonSteps::estimated_fields))]
fn push_estimated(
    text: &mut String,
    world: &World,
    member: Member,
    estimate: Option<(&[Message], Round)>,
) -> Result<(), AllocError>
    ensures { OnOk result (Adds text.old text.new
        (fields_text (estimated_fields world.now.rehearsal member (option_map (λ e. (e.0.now, e.1)) estimate.entry)))) }
{
    push_round(text, world, member)?;
    push_estimate_at(text, estimate)
}

#[tactic(auto, using(crate::proofs::Fields::pieces), unfolding(crate::specs::JsonSteps::concluded_fields))]
fn push_concluded(
    text: &mut String,
    world: &World,
    before: u32,
    member: Member,
) -> Result<(), AllocError>
    ensures { OnOk result (Adds text.old text.new (fields_text (concluded_fields world.now.rehearsal before member))) }
{
    push_round(text, world, member)?;
    push_replies(text, world, member)?;
    push_decided(text, world, before, member)
}

// Where something was sent since so many envelopes were, the value that the member holds is decided.
#[tactic(auto, unfolding(crate::specs::JsonSteps::decided_fields, json::proofs::OnLiterals::json_on_literals))]
fn push_decided(
    text: &mut String,
    world: &World,
    before: u32,
    member: Member,
) -> Result<(), AllocError>
    ensures { OnOk result (Adds text.old text.new (fields_text (decided_fields world.now.rehearsal before member))) }
{
    if world.sent() == before {
        return Ok(());
    }
    push_messages_at(text, "decided", held(world, member))
}

// The facts behind the refusal: the envelope that the step names, or where its member stands.
#[tactic(auto, unfolding(crate::specs::JsonSteps::facts_fields))]
fn push_facts(
    text: &mut String,
    world: &World,
    step: Step,
    refusal: Refusal,
) -> Result<(), AllocError>
    ensures { OnOk result (Adds text.old text.new (fields_text (facts_fields world.now.rehearsal step refusal))) }
{
    match step {
        Step::Receive(_, serial) => push_serial_facts(text, world, serial, refusal),
        Step::Postpone(_, serial) => push_serial_facts(text, world, serial, refusal),
        Step::Lose(_, serial) => push_serial_facts(text, world, serial, refusal),
        Step::Repeat(_, serial) => push_serial_facts(text, world, serial, refusal),
        step => push_member_facts(text, world, step.member()),
    }
}

fn push_serial_facts(
    text: &mut String,
    world: &World,
    serial: Serial,
    refusal: Refusal,
) -> Result<(), AllocError>
    ensures { OnOk result (Adds text.old text.new (fields_text (serial_facts world.now.rehearsal serial refusal))) }
{
    push_letter_facts(text, world, serial, world.letter(serial), refusal)
}

// When the envelope left its line; how many were sent where there is none of the serial.
fn push_letter_facts(
    text: &mut String,
    world: &World,
    serial: Serial,
    letter: Option<Letter>,
    refusal: Refusal,
) -> Result<(), AllocError>
    ensures { OnOk result (Adds text.old text.new (fields_text (letter_facts world.now.rehearsal serial letter refusal))) }
{
    match letter {
        None => push_missing(text, world),
        Some(_) => push_leaving(text, world, serial, refusal),
    }
}

// How many envelopes were sent.
#[tactic(auto, unfolding(crate::specs::JsonSteps::missing_fields, json::proofs::OnLiterals::json_on_literals))]
fn push_missing(text: &mut String, world: &World) -> Result<(), AllocError>
    ensures { OnOk result (Adds text.old text.new (fields_text (missing_fields world.now.rehearsal))) }
{
    let sent = world.sent();
    write!(text, ",\"envelopes\":{sent}")
}

// When the envelope left its line, where the refusal is that it doesn't wait.
fn push_leaving(
    text: &mut String,
    world: &World,
    serial: Serial,
    refusal: Refusal,
) -> Result<(), AllocError>
    ensures { OnOk result (Adds text.old text.new (fields_text (leaving_fields world.now.rehearsal serial refusal))) }
{
    match refusal {
        Refusal::NotWaiting => push_left(text, last_taking(world.record(), serial)),
        _ => Ok(()),
    }
}

fn push_left(text: &mut String, taking: Option<(usize, Step)>) -> Result<(), AllocError>
    ensures { OnOk result (Adds text.old text.new (fields_text (left_fields taking))) }
{
    match taking {
        None => Ok(()),
        Some((number, step)) => {
            write!(text, ",\"left\":{{\"number\":{number},\"entry\":{step}}}")
        }
    }
}

// Where the member stands.
#[tactic(auto, using(crate::proofs::Fields::pieces), unfolding(crate::specs::JsonSteps::member_facts))]
fn push_member_facts(text: &mut String, world: &World, member: Member) -> Result<(), AllocError>
    ensures { OnOk result (Adds text.old text.new (fields_text (member_facts world.now.rehearsal member))) }
{
    push_instance(text, instance_of(world, member))?;
    push_part(text, world, member)
}
