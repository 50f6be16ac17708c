//! What members do, in words.

ghost use Rattle.std.specs.Prelude.{◌≡◌, ◌≤◌, IfOk, map};
ghost use Rattle.ct_grammar.specs.Acts.{operands, named_command, command_first, short_act, lose_first, act_on, picked_act, long_act};
ghost use Rattle.ct_grammar.specs.Acts.{act_first, behind_act};
ghost use Rattle.ct_grammar.specs.Unfits.{map_ok};

use crate::act::Act;
use crate::leading::{member_first, number_first, set_first};
use crate::pick::Pick;
use crate::picking::{behind_pick, pick_first};
use crate::unfit::Unfit;
use crate::wanted::Wanted;
use ct_names::Command;

const BYTE: u64 = 255;

// A register, and a number up to `high`, and the words behind them.
#[tactic(auto, unfolding(crate::specs::Acts::operands))]
fn operands<'w, 'a>(
    words: &'w [&'a str],
    high: u64,
    wanted: Wanted,
) -> Result<((u8, u64), &'w [&'a str]), Unfit>
    ensures value { map_ok (λ r. (r.0, map (λ word. word.now) r.1.now)) result ≡ operands high wanted (map (λ word. word.now) words.now) }
    ensures within { IfOk result (λ r. r.0.1 ≤ high) }
{
    let (register, rest) = member_first(words, Wanted::Register)?;
    let (n, rest) = number_first(rest, 0, high, wanted)?;
    Ok(((register, n), rest))
}

// The command of this name, and the words behind it.
#[tactic(auto, unfolding(crate::specs::Acts::named_command))]
fn named_command<'w, 'a>(
    name: &str,
    words: &'w [&'a str],
    wanted: Wanted,
) -> Result<(Command, &'w [&'a str]), Unfit>
    ensures { map_ok (λ r. (r.0, map (λ word. word.now) r.1.now)) result
        ≡ named_command wanted name.now (map (λ word. word.now) words.now) }
{
    match name {
        "set" => {
            let ((register, n), rest) = operands(words, u64::MAX, Wanted::Amount)?;
            Ok((Command::Set(register, n), rest))
        }
        "add" => {
            let ((register, n), rest) = operands(words, u64::MAX, Wanted::Amount)?;
            Ok((Command::Add(register, n), rest))
        }
        "copy" => {
            let ((register, n), rest) = operands(words, BYTE, Wanted::Register)?;
            Ok((Command::Copy(register, n as u8), rest))
        }
        _ => Err(Unfit::before(words, wanted)),
    }
}

/// The command that the first words say, and the words behind it.
#[tactic(auto, unfolding(crate::specs::Acts::command_first))]
pub(crate) fn command_first<'w, 'a>(
    words: &'w [&'a str],
    wanted: Wanted,
) -> Result<(Command, &'w [&'a str]), Unfit>
    ensures { map_ok (λ r. (r.0, map (λ word. word.now) r.1.now)) result ≡ command_first wanted (map (λ word. word.now) words.now) }
{
    match words {
        [] => Err(Unfit::End(wanted)),
        [name, rest @ ..] => named_command(name, rest, wanted),
    }
}

// The acts of one word.
#[tactic(auto, unfolding(crate::specs::Acts::short_act))]
fn short_act(name: &str) -> Option<Act>
    ensures { result ≡ short_act name.now }
{
    match name {
        "begin" => Some(Act::Begin),
        "enter" => Some(Act::Enter),
        "adopt" => Some(Act::Adopt),
        "suspect" => Some(Act::Suspect),
        "conclude" => Some(Act::Conclude),
        "deliver" => Some(Act::Deliver),
        "follow" => Some(Act::Follow),
        "crash" => Some(Act::Crash),
        _ => None,
    }
}

// The loss of an envelope, or of all that certain members sent, and the words behind it.
#[tactic(auto, unfolding(crate::specs::Acts::lose_first))]
fn lose_first<'w, 'a>(words: &'w [&'a str]) -> Result<(Act, &'w [&'a str]), Unfit>
    ensures { map_ok (λ r. (r.0, map (λ word. word.now) r.1.now)) result ≡ lose_first (map (λ word. word.now) words.now) }
{
    let [word, rest @ ..] = words else {
        return Err(Unfit::End(Wanted::Loss));
    };
    if *word == "from" {
        return match set_first(rest) {
            Ok((set, rest)) => Ok((Act::LoseFrom(set), rest)),
            Err(unfit) => Err(unfit),
        };
    }
    let (pick, rest) = pick_first(words, Wanted::Loss)?;
    Ok((Act::Lose(pick), rest))
}

// The act of this name on the envelope.
fn act_on(name: &str, pick: Pick) -> Act
    ensures { result ≡ act_on name.now pick }
{
    match name {
        "receive" => Act::Receive(pick),
        "postpone" => Act::Postpone(pick),
        _ => Act::Repeat(pick),
    }
}

// The acts on an envelope, and the words behind them; otherwise those of one word.
#[tactic(auto, unfolding(crate::specs::Acts::picked_act))]
fn picked_act<'w, 'a>(
    name: &str,
    words: &'w [&'a str],
    wanted: Wanted,
) -> Result<(Act, &'w [&'a str]), Unfit>
    ensures { map_ok (λ r. (r.0, map (λ word. word.now) r.1.now)) result ≡ picked_act wanted name.now (map (λ word. word.now) words.now) }
{
    match name {
        "receive" | "postpone" | "repeat" => {
            let (pick, rest) = pick_first(words, Wanted::Envelope)?;
            Ok((act_on(name, pick), rest))
        }
        _ => match short_act(name) {
            Some(act) => Ok((act, words)),
            None => Err(Unfit::before(words, wanted)),
        },
    }
}

// The acts of several words, and the words behind them; otherwise those on an envelope and those of one word.
#[tactic(auto, unfolding(crate::specs::Acts::long_act))]
fn long_act<'w, 'a>(
    name: &str,
    words: &'w [&'a str],
    wanted: Wanted,
) -> Result<(Act, &'w [&'a str]), Unfit>
    ensures { map_ok (λ r. (r.0, map (λ word. word.now) r.1.now)) result ≡ long_act wanted name.now (map (λ word. word.now) words.now) }
{
    match name {
        "submit" => {
            let (command, rest) = command_first(words, Wanted::Command)?;
            Ok((Act::Submit(command), rest))
        }
        "choose" => {
            let (p, rest) = member_first(words, Wanted::Member)?;
            Ok((Act::Choose(p), rest))
        }
        "lose" => lose_first(words),
        _ => picked_act(name, words, wanted),
    }
}

/// The act that the first words say, and the words behind it.
#[tactic(auto, unfolding(crate::specs::Acts::act_first))]
pub(crate) fn act_first<'w, 'a>(
    words: &'w [&'a str],
    wanted: Wanted,
) -> Result<(Act, &'w [&'a str]), Unfit>
    ensures { map_ok (λ r. (r.0, map (λ word. word.now) r.1.now)) result ≡ act_first wanted (map (λ word. word.now) words.now) }
{
    match words {
        [] => Err(Unfit::End(wanted)),
        [name, rest @ ..] => long_act(name, rest, wanted),
    }
}

/// What could stand behind the act, where nothing is stated.
pub(crate) fn behind_act(act: &Act) -> Wanted
    ensures { result ≡ behind_act act.now }
{
    match *act {
        Act::Receive(pick) | Act::Postpone(pick) | Act::Lose(pick) | Act::Repeat(pick) =>
            behind_pick(pick),
        Act::Submit(_)
        | Act::Begin
        | Act::Enter
        | Act::Choose(_)
        | Act::Adopt
        | Act::Suspect
        | Act::Conclude
        | Act::Deliver
        | Act::Follow
        | Act::Crash
        | Act::LoseFrom(_) => Wanted::Nothing,
    }
}
