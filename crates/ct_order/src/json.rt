//! Lines that are objects of JSON.

ghost use Rattle.std.specs.Prelude.{◌≡◌, ◌≤◌, IfOk, option_map, true};
ghost use Rattle.serde_json.specs.Read.{read};
ghost use Rattle.serde_json.specs.View.{view};
ghost use Rattle.ct_order.specs.Json.{count_of, event_of, has, is_object, key_count, key_event, number_event, object_event, value_in};
ghost use Rattle.ct_order.specs.Json.{with_number};
ghost use Rattle.ct_order.specs.Json.{with_text, with_true};
ghost use Rattle.ct_order.specs.Lines.{entry_of};

use crate::act::Act;
use crate::event::Event;
use crate::no_line::NoLine;
use crate::plain::{plain_event, text_in, word_in};
use serde_json::Value;
use std::alloc::{AllocError, Global};

// Whether the line begins as an object does.
fn is_object(text: &[u8]) -> bool
    ensures { result ≡ is_object text.now }
{
    match text {
        [] => false,
        [first, ..] => *first == b'{',
    }
}

/// The value of a line that begins as an object does; None where it is no JSON, and for other lines.
pub(crate) fn value_in(alloc: Global, line: &[u8]) -> Result<Option<Value>, AllocError>
    ensures { IfOk result (λ value. is_object line.now ≡ true → option_map (λ v. view v) value ≡ value_in line.now) }
{
    if is_object(line) {
        match text_in(line) {
            None => Ok(None),
            Some(text) => value_of(alloc, text),
        }
    } else {
        Ok(None)
    }
}

// The value of the text.
fn value_of(alloc: Global, text: &str) -> Result<Option<Value>, AllocError>
    ensures { IfOk result (λ value. option_map (λ v. view v) value ≡ read text.now) }
{
    match Value::from_str(alloc, text) {
        Ok(value) => Ok(Some(value)),
        Err(error) => {
            if error.is_memory() {
                Err(AllocError)
            } else {
                Ok(None)
            }
        }
    }
}

/// What a line says that begins and ends with no blank; the value is its own, where it begins as an object does.
pub(crate) fn event_of<'a>(text: &'a [u8], value: &'a Option<Value>) -> Event<'a>
    requires { is_object text.now ≡ true → option_map (λ v. view v) value.now ≡ value_in text.now }
    ensures { entry_of result ≡ event_of text.now }
{
    if !is_object(text) {
        return plain_event(text);
    }
    match value {
        Some(value) => object_event(value),
        None => Event::No(NoLine::Json),
    }
}

// What the object says, which has one of the keys alone.
fn object_event(value: &Value) -> Event<'_>
    ensures { entry_of result ≡ object_event (view value.now) }
{
    if key_count(value) == 1 {
        key_event(value)
    } else {
        Event::No(NoLine::Json)
    }
}

// How many of the keys the object has.
fn key_count(value: &Value) -> u32
    ensures { result ≡ key_count (view value.now) }
{
    has(value, "broadcast")
        + has(value, "deliver")
        + has(value, "state")
        + has(value, "from")
        + has(value, "restart")
        + has(value, "crash")
        + has(value, "end")
}

fn has(value: &Value, key: &str) -> u32
    ensures value { result ≡ has key.now (view value.now) }
    ensures few { result ≤ 1 }
{
    if value.get(key).is_some() { 1 } else { 0 }
}

// What the object says by the first of the keys that it has.
fn key_event(value: &Value) -> Event<'_>
    ensures { entry_of result ≡ key_event (view value.now) }
{
    if let Some(found) = value.get("broadcast") {
        return with_text(Act::Broadcast, found);
    }
    if let Some(found) = value.get("deliver") {
        return with_text(Act::Deliver, found);
    }
    if let Some(found) = value.get("state") {
        return with_text(Act::State, found);
    }
    number_event(value)
}

// The same of the keys without words.
fn number_event(value: &Value) -> Event<'_>
    ensures { entry_of result ≡ number_event (view value.now) }
{
    if let Some(found) = value.get("from") {
        return with_number(false, found);
    }
    if let Some(found) = value.get("restart") {
        return with_number(true, found);
    }
    if let Some(found) = value.get("crash") {
        return with_true(Act::Crash, found);
    }
    if let Some(found) = value.get("end") {
        return with_true(Act::End, found);
    }
    Event::No(NoLine::Json)
}

// The act with the word that the value is.
fn with_text(act: Act, found: &Value) -> Event<'_>
    ensures { entry_of result ≡ with_text act (view found.now) }
{
    match found.as_str() {
        None => Event::No(NoLine::Word),
        Some(text) => match word_in(text.as_bytes()) {
            Some(word) => Event::Says(act, word),
            None => Event::No(NoLine::Word),
        },
    }
}

// The act with the number of deliveries that the value is: a restart, or a snapshot.
fn with_number(restarts: bool, found: &Value) -> Event<'_>
    ensures { entry_of result ≡ with_number restarts (view found.now) }
{
    match count_of(found) {
        Some(count) => {
            let act = if restarts {
                Act::Restart(count)
            } else {
                Act::From(count)
            };
            Event::Says(act, "")
        }
        None => Event::No(NoLine::Number),
    }
}

fn count_of(found: &Value) -> Option<u32>
    ensures { result ≡ count_of (view found.now) }
{
    match found.as_u64() {
        Some(count) if count <= u32::MAX as u64 => Some(count as u32),
        _ => None,
    }
}

// The act, where the value is true.
fn with_true(act: Act, found: &Value) -> Event<'_>
    ensures { entry_of result ≡ with_true act (view found.now) }
{
    match found.as_bool() {
        Some(true) => Event::Says(act, ""),
        _ => Event::No(NoLine::Json),
    }
}
