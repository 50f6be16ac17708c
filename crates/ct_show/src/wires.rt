//! Wires, and what a step sent, shown.

ghost use Rattle.std.specs.Prelude.{◌≡◌, ◌≤◌, OnOk};
ghost use Rattle.ct_text.specs.Adds.{Adds};
ghost use Rattle.ct_show.specs.Wires.{round_text, wire_text, letter_text, carried_text, serial_text, to_text, one_sent_text, all_sent_text};
ghost use Rattle.ct_show.specs.Wires.{sent_text};

use ct_names::{Instance, MAX_ENVELOPES, Message, Round, Serial};
use ct_text::push_set;
use ct_world::{Letter, Wire, World};
use std::alloc::AllocError;

/// An instance and a round of it.
#[tactic(auto, unfolding(crate::specs::Wires::round_text))]
pub fn push_round(text: &mut String, instance: Instance, round: Round) -> Result<(), AllocError>
    ensures { OnOk result (Adds text.old text.new (round_text instance round)) }
{
    write!(text, "{instance}/{round}")
}

// The wire with this value.
#[tactic(auto, unfolding(crate::specs::Wires::wire_text, crate::specs::Wires::round_text))]
pub(crate) fn push_wire(text: &mut String, wire: &Wire, value: &[Message]) -> Result<(), AllocError>
    ensures { OnOk result (Adds text.old text.new (wire_text wire.now value.now)) }
{
    match *wire {
        Wire::Data(message) => write!(text, "data {message}"),
        Wire::Est {
            instance,
            round,
            from,
            ts,
            ..
        } => {
            write!(text, "est {instance}/{round} from {from} ")?;
            push_set(text, value)?;
            write!(text, " ts {ts}")
        }
        Wire::Prop {
            instance,
            round,
            ..
        } => {
            write!(text, "prop {instance}/{round} ")?;
            push_set(text, value)
        }
        Wire::Ack {
            instance,
            round,
            from,
        } => write!(text, "ack {instance}/{round} from {from}"),
        Wire::Nack {
            instance,
            round,
            from,
        } => write!(text, "nack {instance}/{round} from {from}"),
        Wire::Dec {
            instance,
            round,
            ..
        } => {
            write!(text, "dec {instance}/{round} ")?;
            push_set(text, value)
        }
    }
}

fn push_letter(
    text: &mut String,
    letter: Option<Letter>,
    value: &[Message],
) -> Result<(), AllocError>
    ensures { OnOk result (Adds text.old text.new (letter_text letter value.now)) }
{
    match letter {
        None => text.push_str("not sent"),
        Some(letter) => push_wire(text, &letter.wire, value),
    }
}

// What the envelope of the serial carries.
#[tactic(auto, unfolding(crate::specs::Wires::carried_text))]
fn push_carried(text: &mut String, world: &World, serial: Serial) -> Result<(), AllocError>
    ensures { OnOk result (Adds text.old text.new (carried_text world.now.rehearsal serial)) }
{
    let value = world.value(serial).unwrap_or(&[]);
    push_letter(text, world.letter(serial), value)
}

/// The serial and what its envelope carries.
#[tactic(auto, unfolding(crate::specs::Wires::serial_text))]
pub fn push_serial(text: &mut String, world: &World, serial: Serial) -> Result<(), AllocError>
    ensures { OnOk result (Adds text.old text.new (serial_text world.now.rehearsal serial)) }
{
    write!(text, "#{serial} ")?;
    push_carried(text, world, serial)
}

fn push_receiver(text: &mut String, letter: Option<Letter>) -> Result<(), AllocError>
    ensures { OnOk result (Adds text.old text.new (to_text letter)) }
{
    match letter {
        None => Ok(()),
        Some(letter) => {
            let to = letter.to;
            write!(text, " to {to}")
        }
    }
}

#[tactic(auto, unfolding(crate::specs::Wires::one_sent_text))]
fn push_one_sent(text: &mut String, world: &World, serial: Serial) -> Result<(), AllocError>
    ensures { OnOk result (Adds text.old text.new (one_sent_text world.now.rehearsal serial)) }
{
    text.push_str("  -> ")?;
    push_serial(text, world, serial)?;
    push_receiver(text, world.letter(serial))
}

#[tactic(auto, unfolding(crate::specs::Wires::all_sent_text))]
fn push_all_sent(
    text: &mut String,
    world: &World,
    first: Serial,
    last: Serial,
) -> Result<(), AllocError>
    ensures { OnOk result (Adds text.old text.new (all_sent_text world.now.rehearsal first last)) }
{
    write!(text, "  -> #{first}..{last} ")?;
    push_carried(text, world, first)?;
    text.push_str(" to all")
}

// What was sent since this many envelopes were.
#[tactic(auto, unfolding(crate::specs::Wires::sent_text))]
pub(crate) fn push_sent(text: &mut String, world: &World, before: u32) -> Result<(), AllocError>
    requires { before ≤ MAX_ENVELOPES }
    ensures { OnOk result (Adds text.old text.new (sent_text world.now.rehearsal before)) }
{
    let now = world.sent();
    if now == before {
        Ok(())
    } else if now == before + 1 {
        push_one_sent(text, world, now)
    } else {
        push_all_sent(text, world, before + 1, now)
    }
}
