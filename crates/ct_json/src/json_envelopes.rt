//! Estimates, envelopes and what a step sent, as JSON.

ghost use Rattle.std.specs.Prelude.{◌≡◌, ◌≤◌, [], ◌∷◌, OnOk, option_map};
ghost use Rattle.serde_json.specs.Written.{compact_text};
ghost use Rattle.ct_text.specs.Adds.{Adds};
ghost use Rattle.ct_json.specs.Fields.{fields_text};
ghost use Rattle.ct_json.specs.JsonEnvelopes.{carried_fields, envelope_by, estimate_field, estimate_fields, letter_fields, sender_fields};
ghost use Rattle.ct_json.specs.JsonEnvelopes.{sent_fields, wire_fields};

use crate::report::{push_message, push_messages, push_messages_at};
use ct_names::{MAX_ENVELOPES, Member, Message, Round, Serial};
use ct_text::push_separator;
use ct_world::{Letter, Wire, World};
use std::alloc::AllocError;

// A value and its ts.
#[tactic(auto, unfolding(json::proofs::OnLiterals::json_on_literals))]
pub(crate) fn push_estimate(
    text: &mut String,
    value: &[Message],
    ts: Round,
) -> Result<(), AllocError>
    ensures { OnOk result (Adds text.old text.new (fields_text (estimate_fields value.now ts))) }
{
    push_messages_at(text, "value", value)?;
    write!(text, ",\"timestamp\":{ts}")
}

// The estimate at its key; nothing where there is none.
#[tactic(auto, unfolding(crate::specs::JsonEnvelopes::estimate_field))]
pub(crate) fn push_estimate_at(
    text: &mut String,
    estimate: Option<(&[Message], Round)>,
) -> Result<(), AllocError>
    ensures { OnOk result (Adds text.old text.new (fields_text (estimate_field (option_map (λ e. (e.0.now, e.1)) estimate.entry)))) }
{
    match estimate {
        None => Ok(()),
        Some((value, ts)) => {
            text.push_str(",\"estimate\":{\"value\":")?;
            push_messages(text, value)?;
            write!(text, ",\"timestamp\":{ts}}}")
        }
    }
}

// What the wire with this value says.
#[tactic(auto, unfolding(crate::specs::JsonEnvelopes::wire_fields, crate::specs::JsonEnvelopes::vote_fields, json::proofs::OnLiterals::json_on_literals))]
fn push_wire(text: &mut String, wire: &Wire, value: &[Message]) -> Result<(), AllocError>
    ensures { OnOk result (Adds text.old text.new (fields_text (wire_fields wire.now value.now))) }
{
    match *wire {
        Wire::Data(message) => {
            text.push_str(",\"kind\":\"Data\"")?;
            push_message(text, message)
        }
        Wire::Est {
            instance,
            round,
            from,
            ts,
            ..
        } => {
            write!(
                text,
                ",\"kind\":\"Est\",\"instance\":{instance},\"round\":{round},\"from\":{from}"
            )?;
            push_estimate(text, value, ts)
        }
        Wire::Prop {
            instance,
            round,
            ..
        } => {
            write!(
                text,
                ",\"kind\":\"Prop\",\"instance\":{instance},\"round\":{round}"
            )?;
            push_messages_at(text, "value", value)
        }
        Wire::Ack {
            instance,
            round,
            from,
        } => write!(
            text,
            ",\"kind\":\"Ack\",\"instance\":{instance},\"round\":{round},\"from\":{from}"
        ),
        Wire::Nack {
            instance,
            round,
            from,
        } => write!(
            text,
            ",\"kind\":\"Nack\",\"instance\":{instance},\"round\":{round},\"from\":{from}"
        ),
        Wire::Dec {
            instance,
            round,
            ..
        } => {
            write!(
                text,
                ",\"kind\":\"Dec\",\"instance\":{instance},\"round\":{round}"
            )?;
            push_messages_at(text, "value", value)
        }
    }
}

// Whom the envelope goes to, and what it carries.
#[tactic(auto, unfolding(json::proofs::OnLiterals::json_on_literals))]
fn push_letter(
    text: &mut String,
    letter: Option<Letter>,
    value: &[Message],
) -> Result<(), AllocError>
    ensures { OnOk result (Adds text.old text.new (fields_text (letter_fields letter value.now))) }
{
    match letter {
        None => Ok(()),
        Some(letter) => {
            let to = letter.to;
            write!(text, ",\"to\":{to}")?;
            push_wire(text, &letter.wire, value)
        }
    }
}

// The same of the envelope of the serial.
#[tactic(auto, unfolding(crate::specs::JsonEnvelopes::carried_fields))]
fn push_carried(text: &mut String, world: &World, serial: Serial) -> Result<(), AllocError>
    ensures { OnOk result (Adds text.old text.new (fields_text (carried_fields world.now.rehearsal serial))) }
{
    let value = world.value(serial).unwrap_or(&[]);
    push_letter(text, world.letter(serial), value)
}

// The envelope of the serial, and whose step sent it, where it is told.
pub(crate) fn push_envelope(
    text: &mut String,
    sender: Option<Member>,
    world: &World,
    serial: Serial,
) -> Result<(), AllocError>
    ensures { OnOk result (Adds text.old text.new (compact_text (envelope_by sender world.now.rehearsal serial))) }
{
    write!(text, "{{\"serial\":{serial}")?;
    push_carried(text, world, serial)?;
    push_sender(text, sender)?;
    text.push_str("}")
}

#[tactic(auto, unfolding(json::proofs::OnLiterals::json_on_literals))]
fn push_sender(text: &mut String, sender: Option<Member>) -> Result<(), AllocError>
    ensures { OnOk result (Adds text.old text.new (fields_text (sender_fields sender))) }
{
    match sender {
        None => Ok(()),
        Some(sender) => write!(text, ",\"sender\":{sender}"),
    }
}

// What was sent since this many envelopes were.
pub(crate) fn push_sent_at(text: &mut String, world: &World, before: u32) -> Result<(), AllocError>
    requires { before ≤ MAX_ENVELOPES }
    ensures { OnOk result (Adds text.old text.new (fields_text (sent_fields world.now.rehearsal before))) }
{
    text.push_str(",\"sent\":[")?;
    let count = world.sent().saturating_sub(before);
    let mut later = false;
    for i in 0..count {
        push_separator(text, ',', later)?;
        push_envelope(text, None, world, before + i + 1)?;
        later = true;
    }
    text.push_str("]")
}
