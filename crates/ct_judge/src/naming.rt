//! How a schedule names envelopes.

ghost use Rattle.std.specs.Prelude.{◌++◌, [], ◌∷◌, OnOk, codes, decimal, flat_map};
ghost use Rattle.std.specs.List.{concat};
ghost use Rattle.ct_text.specs.Adds.{Adds};
ghost use Rattle.ct_print.specs.Acts.{command_text};
ghost use Rattle.ct_judging.specs.Naming.{carried_name, envelope_name, from_name, letter_name, listed};
ghost use Rattle.ct_judging.specs.Naming.{pick_name, round_name, set_name, shortened, value_in, value_name, wire_name};

use ct_grammar::{Carried, Pick};
use ct_judging::MOST_NAMED;
use ct_names::{Command, Instance, Member, Message, Round, Serial};
use ct_play::{Stage, carried_of};
use ct_print::push_command;
use ct_show::push_round;
use ct_text::push_messages;
use ct_world::{Letter, Wire};
use std::alloc::AllocError;

// An envelope, as a line names it.
#[tactic(auto, unfolding(ct_judging::specs::Naming::pick_name))]
pub(crate) fn push_pick(text: &mut String, pick: Pick) -> Result<(), AllocError>
    ensures { OnOk result (Adds text.old text.new (pick_name pick)) }
{
    match pick {
        Pick::Serial(serial) => write!(text, "#{serial}"),
        Pick::First(carried, from) => {
            push_carried(text, carried)?;
            push_from(text, from)
        }
    }
}

// What an envelope carries.
#[tactic(auto, unfolding(ct_judging::specs::Naming::carried_name))]
fn push_carried(text: &mut String, carried: Carried) -> Result<(), AllocError>
    ensures { OnOk result (Adds text.old text.new (carried_name carried)) }
{
    match carried {
        Carried::Data(origin, number) => write!(text, "data {origin}.{number}"),
        Carried::Est(instance, round) => push_round_name(text, "est", instance, round),
        Carried::Prop(instance, round) => push_round_name(text, "prop", instance, round),
        Carried::Ack(instance, round) => push_round_name(text, "ack", instance, round),
        Carried::Nack(instance, round) => push_round_name(text, "nack", instance, round),
        Carried::Dec(instance, round) => push_round_name(text, "dec", instance, round),
    }
}

// The word, and an instance and a round of it.
fn push_round_name(
    text: &mut String,
    word: &str,
    instance: Instance,
    round: Round,
) -> Result<(), AllocError>
    ensures { OnOk result (Adds text.old text.new (round_name word.now instance round)) }
{
    write!(text, "{word} ")?;
    push_round(text, instance, round)
}

// Who sent it, where that is told.
fn push_from(text: &mut String, from: Option<Member>) -> Result<(), AllocError>
    ensures { OnOk result (Adds text.old text.new (from_name from)) }
{
    match from {
        None => Ok(()),
        Some(member) => write!(text, " from {member}"),
    }
}

// The envelope of the serial.
#[tactic(auto, unfolding(ct_judging::specs::Naming::envelope_name))]
pub(crate) fn push_envelope(
    text: &mut String,
    stage: &Stage,
    serial: Serial,
) -> Result<(), AllocError>
    ensures { OnOk result (Adds text.old text.new (envelope_name stage.now.rehearsal serial)) }
{
    write!(text, "#{serial} ")?;
    push_wire_name(text, stage.world().letter(serial))?;
    push_from(text, stage.sender(serial))
}

fn push_wire_name(text: &mut String, letter: Option<Letter>) -> Result<(), AllocError>
    ensures { OnOk result (Adds text.old text.new (wire_name letter)) }
{
    match letter {
        None => Ok(()),
        Some(letter) => push_carried(text, carried_of(&letter.wire)),
    }
}

// The same with its value.
#[tactic(auto, unfolding(ct_judging::specs::Naming::letter_name))]
pub(crate) fn push_letter(
    text: &mut String,
    stage: &Stage,
    serial: Serial,
) -> Result<(), AllocError>
    ensures { OnOk result (Adds text.old text.new (letter_name stage.now.rehearsal serial)) }
{
    push_envelope(text, stage, serial)?;
    let world = stage.world();
    let value = world.value(serial).unwrap_or(&[]);
    push_value_in(text, world.letter(serial), value)
}

fn push_value_in(
    text: &mut String,
    letter: Option<Letter>,
    value: &[Message],
) -> Result<(), AllocError>
    ensures { OnOk result (Adds text.old text.new (value_in letter value.now)) }
{
    match letter {
        None => Ok(()),
        Some(letter) => push_value(text, &letter.wire, value),
    }
}

// The wire's value, and of an estimate the ts.
#[tactic(auto, unfolding(ct_judging::specs::Naming::value_name))]
fn push_value(text: &mut String, wire: &Wire, value: &[Message]) -> Result<(), AllocError>
    ensures { OnOk result (Adds text.old text.new (value_name wire.now value.now)) }
{
    match *wire {
        Wire::Data(message) => push_submitted(text, message.command()),
        Wire::Est { ts, .. } => push_estimate(text, value, ts),
        Wire::Prop { .. } => push_set(text, value),
        Wire::Ack { .. } => Ok(()),
        Wire::Nack { .. } => Ok(()),
        Wire::Dec { .. } => push_set(text, value),
    }
}

// The command of a message, as a line submits it.
fn push_submitted(text: &mut String, command: Command) -> Result<(), AllocError>
    ensures { OnOk result (Adds text.old text.new ((codes " " ++ command_text command))) }
{
    text.push_str(" ")?;
    push_command(text, command)
}

fn push_set(text: &mut String, value: &[Message]) -> Result<(), AllocError>
    ensures { OnOk result (Adds text.old text.new ((codes " " ++ set_name value.now))) }
{
    text.push_str(" {")?;
    push_messages(text, ',', value)?;
    text.push('}')
}

fn push_estimate(text: &mut String, value: &[Message], ts: Round) -> Result<(), AllocError>
    ensures { OnOk result (Adds text.old text.new (concat (codes " " ∷ set_name value.now ∷ codes " ts " ∷ decimal ts ∷ []))) }
{
    push_set(text, value)?;
    write!(text, " ts {ts}")
}

// The envelopes of these serials; of many the first ones, and how many more there are.
#[tactic(auto, unfolding(ct_judging::specs::Naming::shortened))]
pub(crate) fn push_shortened(
    text: &mut String,
    stage: &Stage,
    line: &[Serial],
) -> Result<(), AllocError>
    ensures { OnOk result (Adds text.old text.new (shortened (envelope_name stage.now.rehearsal) line.now)) }
{
    if line.len() <= MOST_NAMED {
        return push_listed(text, stage, line);
    }
    push_listed(text, stage, &line[..MOST_NAMED])?;
    let more = line.len() - MOST_NAMED;
    write!(text, " and {more} more")
}

// The envelopes of these serials with their values.
pub(crate) fn push_letters(
    text: &mut String,
    stage: &Stage,
    line: &[Serial],
) -> Result<(), AllocError>
    ensures { OnOk result (Adds text.old text.new (listed (letter_name stage.now.rehearsal) line.now)) }
{
    match line {
        [] => text.push_str("-"),
        [first, rest @ ..] => {
            push_letter(text, stage, *first)?;
            push_more_letters(text, stage, rest)
        }
    }
}

// Each behind a comma.
fn push_more_letters(text: &mut String, stage: &Stage, line: &[Serial]) -> Result<(), AllocError>
    ensures { OnOk result (Adds text.old text.new (flat_map (λ k. codes ", " ++ letter_name stage.now.rehearsal k) line.now)) }
{
    for serial in line {
        text.push_str(", ")?;
        push_letter(text, stage, *serial)?;
    }
    Ok(())
}

// A comma between each two; a dash where there is none.
fn push_listed(text: &mut String, stage: &Stage, line: &[Serial]) -> Result<(), AllocError>
    ensures { OnOk result (Adds text.old text.new (listed (envelope_name stage.now.rehearsal) line.now)) }
{
    match line {
        [] => text.push_str("-"),
        [first, rest @ ..] => {
            push_envelope(text, stage, *first)?;
            push_rest(text, stage, rest)
        }
    }
}

// Each behind a comma.
fn push_rest(text: &mut String, stage: &Stage, line: &[Serial]) -> Result<(), AllocError>
    ensures { OnOk result (Adds text.old text.new (flat_map (λ k. codes ", " ++ envelope_name stage.now.rehearsal k) line.now)) }
{
    for serial in line {
        text.push_str(", ")?;
        push_envelope(text, stage, *serial)?;
    }
    Ok(())
}
