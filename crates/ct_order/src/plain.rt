//! From the bytes of a line to what it says.

ghost use Rattle.std.specs.Prelude.{◌≡◌, ◌<◌, IfSome, length, option_map, position};
ghost use Rattle.std.specs.Char.{is_ascii_whitespace};
ghost use Rattle.std.specs.List.{list_all};
ghost use Rattle.std.specs.Str.{bytes_eq};
ghost use Rattle.ct_order.specs.Lines.{alone, count_in, entry_of, event_named, is_blank, plain_event, is_plain, is_word};
ghost use Rattle.ct_order.specs.Lines.{text_in, trimmed, with_count, with_word, word_in};

use crate::act::Act;
use crate::event::Event;
use crate::limits::MAX_WORD;
use crate::no_line::NoLine;
use ct_streams::number_in;

/// The line without blanks at its ends.
pub(crate) fn trimmed(line: &[u8]) -> &[u8]
    ensures { result.now ≡ trimmed line.now }
{
    line.trim_ascii_start().trim_ascii_end()
}

/// What a line of words says that begins and ends with no blank.
pub(crate) fn plain_event(text: &[u8]) -> Event<'_>
    ensures { entry_of result ≡ plain_event text.now }
{
    if is_blank(text) {
        return Event::Blank;
    }
    match first_blank(text) {
        Some(end) => event_named(&text[..end], trimmed(&text[end..])),
        None => event_named(text, &[]),
    }
}

// Whether nothing stands there, or a comment.
fn is_blank(text: &[u8]) -> bool
    ensures { result ≡ is_blank text.now }
{
    match text {
        [] => true,
        [first, ..] => *first == b'#',
    }
}

// The place of the first blank.
fn first_blank(text: &[u8]) -> Option<usize>
    ensures value { result ≡ position is_ascii_whitespace text.now }
    ensures within { IfSome result (λ end. end < length text.now) }
{
    text.iter().position(|byte| byte.is_ascii_whitespace())
}

// What a line says that begins with this word, and goes on with the rest.
fn event_named<'a>(name: &[u8], rest: &'a [u8]) -> Event<'a>
    ensures { entry_of result ≡ event_named name.now rest.now }
{
    if is(name, "broadcast") {
        with_word(Act::Broadcast, rest)
    } else if is(name, "deliver") {
        with_word(Act::Deliver, rest)
    } else if is(name, "state") {
        with_word(Act::State, rest)
    } else if is(name, "from") {
        with_count(false, rest)
    } else if is(name, "restart") {
        with_count(true, rest)
    } else if is(name, "crash") {
        alone(Act::Crash, rest)
    } else if is(name, "end") {
        alone(Act::End, rest)
    } else {
        Event::No(NoLine::Unknown)
    }
}

fn is(name: &[u8], text: &str) -> bool
    ensures { result ≡ bytes_eq name.now text.now }
{
    name == text.as_bytes()
}

// The act with a word.
fn with_word(act: Act, rest: &[u8]) -> Event<'_>
    ensures { entry_of result ≡ with_word act rest.now }
{
    match word_in(rest) {
        Some(word) => Event::Says(act, word),
        None => Event::No(NoLine::Word),
    }
}

// The act with a number of deliveries: a restart, or a snapshot.
fn with_count(restarts: bool, rest: &[u8]) -> Event<'_>
    ensures { entry_of result ≡ with_count restarts rest.now }
{
    match count_in(rest) {
        Some(count) => {
            let act = if restarts {
                Act::Restart(count)
            } else {
                Act::From(count)
            };
            Event::Says(act, "")
        }
        None => Event::No(NoLine::Number),
    }
}

// The number of deliveries that these bytes are.
fn count_in(bytes: &[u8]) -> Option<u32>
    ensures { result ≡ count_in bytes.now }
{
    match word_in(bytes) {
        Some(word) => number_in(word, 0, u32::MAX),
        None => None,
    }
}

// The act behind which nothing stands.
fn alone(act: Act, rest: &[u8]) -> Event<'_>
    ensures { entry_of result ≡ alone act rest.now }
{
    if rest.is_empty() {
        Event::Says(act, "")
    } else {
        Event::No(NoLine::More)
    }
}

/// The word that these bytes are: text of 1 to 64 bytes without blanks and control bytes.
pub(crate) fn word_in(bytes: &[u8]) -> Option<&str>
    ensures { option_map (λ word. word.now) result ≡ word_in bytes.now }
{
    if is_word(bytes) { text_in(bytes) } else { None }
}

fn is_word(bytes: &[u8]) -> bool
    ensures { result ≡ is_word bytes.now }
{
    !bytes.is_empty() && bytes.len() <= MAX_WORD && are_plain(bytes)
}

// Whether none is a blank or a control byte.
fn are_plain(bytes: &[u8]) -> bool
    ensures { result ≡ list_all is_plain bytes.now }
{
    bytes.iter().all(|byte| *byte > 32 && *byte != 127)
}

/// The text that these bytes are; None where they are no UTF-8.
#[tactic(auto, using(crate::proofs::Worded::is_text, crate::proofs::Worded::no_text))]
pub(crate) fn text_in(bytes: &[u8]) -> Option<&str>
    ensures { option_map (λ text. text.now) result ≡ text_in bytes.now }
{
    match std::str::from_utf8(bytes) {
        Ok(text) => Some(text),
        Err(_) => None,
    }
}
