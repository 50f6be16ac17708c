//! Which envelope words name.

ghost use Rattle.std.specs.Prelude.{◌≡◌, map};
ghost use Rattle.ct_grammar.specs.Picks.{serial_of, message_first, place_first, carried_first, sent_pick, pick_first, behind_sender};
ghost use Rattle.ct_grammar.specs.Picks.{behind_pick, carried_at};
ghost use Rattle.ct_grammar.specs.Unfits.{map_ok};

use crate::carried::Carried;
use crate::leading::member_first;
use crate::numbers::{name_of_message, place, whole};
use crate::pick::Pick;
use crate::unfit::Unfit;
use crate::wanted::Wanted;
use crate::words::begins_with;
use ct_names::{Instance, Member, Round, Serial};

// The number behind `#`.
#[tactic(auto, unfolding(crate::specs::Picks::serial_of))]
fn serial(word: &[u8]) -> Option<Serial>
    ensures { result ≡ serial_of word.now }
{
    match word {
        [b'#', digits @ ..] => whole(digits),
        _ => None,
    }
}

// A message, and the words behind it.
#[tactic(auto, unfolding(crate::specs::Picks::message_first))]
fn message_first<'w, 'a>(words: &'w [&'a str]) -> Result<(Carried, &'w [&'a str]), Unfit>
    ensures { map_ok (λ r. (r.0, map (λ word. word.now) r.1.now)) result ≡ message_first (map (λ word. word.now) words.now) }
{
    match words {
        [] => Err(Unfit::End(Wanted::Message)),
        [word, rest @ ..] => match name_of_message(word.as_bytes()) {
            Some((origin, number)) => Ok((Carried::Data(origin, number), rest)),
            None => Err(Unfit::before(rest, Wanted::Message)),
        },
    }
}

// An instance and a round, and the words behind them.
#[tactic(auto, unfolding(crate::specs::Picks::place_first))]
fn place_first<'w, 'a>(words: &'w [&'a str]) -> Result<((Instance, Round), &'w [&'a str]), Unfit>
    ensures { map_ok (λ r. (r.0, map (λ word. word.now) r.1.now)) result ≡ place_first (map (λ word. word.now) words.now) }
{
    match words {
        [] => Err(Unfit::End(Wanted::Place)),
        [word, rest @ ..] => match place(word.as_bytes()) {
            Some(place) => Ok((place, rest)),
            None => Err(Unfit::before(rest, Wanted::Place)),
        },
    }
}

// What is carried of this instance and round, by its kind.
fn carried_at(kind: &str, place: (Instance, Round)) -> Carried
    ensures { result ≡ carried_at kind.now place }
{
    let (i, r) = place;
    match kind {
        "est" => Carried::Est(i, r),
        "prop" => Carried::Prop(i, r),
        "ack" => Carried::Ack(i, r),
        "nack" => Carried::Nack(i, r),
        _ => Carried::Dec(i, r),
    }
}

// What is carried, by its kind and its name, and the words behind it.
#[tactic(auto, unfolding(crate::specs::Picks::carried_first))]
fn carried_first<'w, 'a>(
    kind: &str,
    words: &'w [&'a str],
    wanted: Wanted,
) -> Result<(Carried, &'w [&'a str]), Unfit>
    ensures { map_ok (λ r. (r.0, map (λ word. word.now) r.1.now)) result
        ≡ carried_first wanted kind.now (map (λ word. word.now) words.now) }
{
    match kind {
        "data" => message_first(words),
        "est" | "prop" | "ack" | "nack" | "dec" => {
            let (place, rest) = place_first(words)?;
            Ok((carried_at(kind, place), rest))
        }
        _ => Err(Unfit::before(words, wanted)),
    }
}

// What is carried, sent by a member where `from` stands next, and the words behind it.
#[tactic(auto, unfolding(crate::specs::Picks::sent_pick))]
fn sent_pick<'w, 'a>(carried: Carried, words: &'w [&'a str]) -> Result<(Pick, &'w [&'a str]), Unfit>
    ensures { map_ok (λ r. (r.0, map (λ word. word.now) r.1.now)) result ≡ sent_pick carried (map (λ word. word.now) words.now) }
{
    match words {
        [] => Ok((Pick::First(carried, None), words)),
        [word, rest @ ..] => match *word {
            "from" => {
                let (p, rest) = member_first(rest, Wanted::Member)?;
                Ok((Pick::First(carried, Some(p)), rest))
            }
            _ => Ok((Pick::First(carried, None), words)),
        },
    }
}

/// The envelope that the first words name, by its serial or by what it carries, and the words behind it.
#[tactic(auto, unfolding(crate::specs::Picks::pick_first))]
pub(crate) fn pick_first<'w, 'a>(
    words: &'w [&'a str],
    wanted: Wanted,
) -> Result<(Pick, &'w [&'a str]), Unfit>
    ensures { map_ok (λ r. (r.0, map (λ word. word.now) r.1.now)) result ≡ pick_first wanted (map (λ word. word.now) words.now) }
{
    match words {
        [] => Err(Unfit::End(wanted)),
        [word, rest @ ..] => {
            if begins_with(word, b'#') {
                return match serial(word.as_bytes()) {
                    Some(n) => Ok((Pick::Serial(n), rest)),
                    None => Err(Unfit::before(rest, Wanted::Serial)),
                };
            }
            let (carried, rest) = carried_first(word, rest, wanted)?;
            sent_pick(carried, rest)
        }
    }
}

/// What could stand behind what is carried, with this sender.
pub(crate) fn behind_sender(from: Option<Member>) -> Wanted
    ensures { result ≡ behind_sender from }
{
    match from {
        None => Wanted::Sender,
        Some(_) => Wanted::Nothing,
    }
}

/// What could stand behind the envelope.
pub(crate) fn behind_pick(pick: Pick) -> Wanted
    ensures { result ≡ behind_pick pick }
{
    match pick {
        Pick::Serial(_) => Wanted::Nothing,
        Pick::First(_, from) => behind_sender(from),
    }
}
