//! What members do, as lines say it.

ghost use Rattle.std.specs.Prelude.{◌≡◌, ◌++◌, OnOk, codes, string_bytes};
ghost use Rattle.ct_print.specs.Acts.{act_text, carried_text, command_text, pick_text, sent_text};

use crate::members::push_set;
use ct_grammar::{Act, Carried, Pick};
use ct_names::{Command, Member};
use std::alloc::AllocError;

/// Puts the act behind the text, as `submit set 0 7` or `receive est 1/2 from 3`. Where memory is refused, a beginning of it may stand
/// there.
#[tactic(auto, unfolding(crate::specs::Acts::act_text))]
pub(crate) fn push_act(text: &mut String, act: &Act) -> Result<(), AllocError>
    ensures { OnOk result (string_bytes text.new ≡ string_bytes text.old ++ act_text act.now) }
{
    match *act {
        Act::Submit(command) => push_submit(text, command),
        Act::Receive(pick) => push_picked(text, "receive ", pick),
        Act::Begin => text.push_str("begin"),
        Act::Enter => text.push_str("enter"),
        Act::Choose(from) => write!(text, "choose {from}"),
        Act::Adopt => text.push_str("adopt"),
        Act::Suspect => text.push_str("suspect"),
        Act::Conclude => text.push_str("conclude"),
        Act::Deliver => text.push_str("deliver"),
        Act::Follow => text.push_str("follow"),
        Act::Crash => text.push_str("crash"),
        Act::Postpone(pick) => push_picked(text, "postpone ", pick),
        Act::Lose(pick) => push_picked(text, "lose ", pick),
        Act::Repeat(pick) => push_picked(text, "repeat ", pick),
        Act::LoseFrom(set) => {
            text.push_str("lose from ")?;
            push_set(text, set)
        }
    }
}

// `submit` and the command.
fn push_submit(text: &mut String, command: Command) -> Result<(), AllocError>
    ensures { OnOk result (string_bytes text.new ≡ string_bytes text.old ++ codes "submit " ++ command_text command) }
{
    text.push_str("submit ")?;
    push_command(text, command)
}

/// Puts the command behind the text, as `set 0 7`. Where memory is refused, a beginning of it may stand there.
#[tactic(auto, unfolding(crate::specs::Acts::command_text))]
pub fn push_command(text: &mut String, command: Command) -> Result<(), AllocError>
    ensures { OnOk result (string_bytes text.new ≡ string_bytes text.old ++ command_text command) }
{
    match command {
        Command::Set(register, value) => write!(text, "set {register} {value}"),
        Command::Add(register, amount) => write!(text, "add {register} {amount}"),
        Command::Copy(from, to) => write!(text, "copy {from} {to}"),
    }
}

/// The word and the envelope.
#[tactic(auto, unfolding(crate::specs::Acts::pick_text))]
pub(crate) fn push_picked(text: &mut String, word: &str, pick: Pick) -> Result<(), AllocError>
    ensures { OnOk result (string_bytes text.new ≡ string_bytes text.old ++ word.now ++ pick_text pick) }
{
    text.push_str(word)?;
    match pick {
        Pick::Serial(serial) => write!(text, "#{serial}"),
        Pick::First(carried, from) => push_sent(text, carried, from),
    }
}

// What is carried, sent by a member where one is named.
#[tactic(auto, unfolding(crate::specs::Acts::sent_text))]
fn push_sent(text: &mut String, carried: Carried, from: Option<Member>) -> Result<(), AllocError>
    ensures { OnOk result (string_bytes text.new ≡ string_bytes text.old ++ sent_text carried from) }
{
    push_carried(text, carried)?;
    match from {
        None => Ok(()),
        Some(from) => write!(text, " from {from}"),
    }
}

// What is carried.
#[tactic(auto, unfolding(crate::specs::Acts::carried_text, crate::specs::Acts::message_word, crate::specs::Acts::place_word))]
fn push_carried(text: &mut String, carried: Carried) -> Result<(), AllocError>
    ensures { OnOk result (string_bytes text.new ≡ string_bytes text.old ++ carried_text carried) }
{
    match carried {
        Carried::Data(origin, number) => write!(text, "data {origin}.{number}"),
        Carried::Est(instance, round) => write!(text, "est {instance}/{round}"),
        Carried::Prop(instance, round) => write!(text, "prop {instance}/{round}"),
        Carried::Ack(instance, round) => write!(text, "ack {instance}/{round}"),
        Carried::Nack(instance, round) => write!(text, "nack {instance}/{round}"),
        Carried::Dec(instance, round) => write!(text, "dec {instance}/{round}"),
    }
}
