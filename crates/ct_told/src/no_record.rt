//! What is told of an input that is no record.

ghost use Rattle.std.specs.Prelude.{◌≡◌, IfOk, OnOk, option_map};
ghost use Rattle.serde_json.specs.View.{view};
ghost use Rattle.ct_text.specs.Adds.{Adds};
ghost use Rattle.ct_records.specs.Script.{data_of};
ghost use Rattle.ct_told.specs.NoRecords.{IsToldAs, begins_number, begins_schedule, json_line, not_json_line, place_text, shape_line};
ghost use Rattle.ct_told.specs.NoRecords.{told_line};

use crate::odd_record::{push_versions, push_whole};
use crate::odd_step::push_step_fault;
use crate::place::Place;
use ct_records::ReadFault;
use serde_json::Value;
use std::alloc::{AllocError, Global};
use std::fmt;
use std::marker::Model;

/// What is told of an input that is no record. Its text is the line for standard error.
#[derive(Debug, Drop)]
pub struct NoRecord {
    line: String,
}

// Contracts see the line.
impl Model for NoRecord {
    ghost use Rattle.std.specs.Prelude.{ℕ, List, string_bytes};

    ghost Value = { List ℕ };

    ghost view = { λ told. string_bytes told.line };
}

impl NoRecord {
    /// What is told of the input with this first fault.
    pub fn of(alloc: Global, fault: ReadFault, bytes: &[u8]) -> Result<NoRecord, AllocError>
        ensures { IfOk result (λ told. IsToldAs told fault bytes.now) }
    {
        let place = place_of(alloc, fault, bytes)?;
        let mut line = String::new(alloc);
        push_told(alloc, &mut line, fault, place, bytes)?;
        Ok(NoRecord { line })
    }
}

// Where an input that is no JSON text stops being one.
fn place_of(alloc: Global, fault: ReadFault, bytes: &[u8]) -> Result<Option<Place>, AllocError> {
    match fault {
        ReadFault::NotJson => Place::in_input(alloc, bytes),
        _ => Ok(None),
    }
}

fn push_told(
    alloc: Global,
    line: &mut String,
    fault: ReadFault,
    place: Option<Place>,
    bytes: &[u8],
) -> Result<(), AllocError>
    ensures { OnOk result (Adds line.old line.new (told_line fault place bytes.now)) }
{
    match fault {
        ReadFault::TooLong => line.push_str("record: too long"),
        ReadFault::NotJson => push_json(line, place, bytes),
        ReadFault::Shape { at } => push_shape(line, at, json_of(alloc, bytes)?),
        ReadFault::Version => push_versions(line),
        ReadFault::OutOfMemory => line.push_str("out of memory"),
    }
}

// Of an input that is no JSON text.
fn push_json(line: &mut String, place: Option<Place>, bytes: &[u8]) -> Result<(), AllocError>
    ensures { OnOk result (Adds line.old line.new (json_line place bytes.now)) }
{
    if begins_schedule(bytes) {
        line.push_str("record: not JSON; this is a schedule: ct_tool record makes a record of it")
    } else {
        push_not_json(line, place)
    }
}

fn push_not_json(line: &mut String, place: Option<Place>) -> Result<(), AllocError>
    ensures { OnOk result (Adds line.old line.new (not_json_line place)) }
{
    line.push_str("record: not JSON")?;
    push_place(line, place)
}

fn push_place(line: &mut String, place: Option<Place>) -> Result<(), AllocError>
    ensures { OnOk result (Adds line.old line.new (place_text place)) }
{
    let Some(place) = place else {
        return line.push_str(": the input ends too early");
    };
    let (number, column) = (place.line, place.column);
    write!(line, " at line {number}, column {column}")
}

// The value of the input, where it is a JSON text.
fn json_of(alloc: Global, bytes: &[u8]) -> Result<Option<Value>, AllocError>
    ensures { IfOk result (λ found. option_map view found ≡ data_of bytes.now) }
{
    match Value::from_slice(alloc, bytes) {
        Ok(value) => Ok(Some(value)),
        Err(error) => {
            if error.is_memory() {
                Err(AllocError)
            } else {
                Ok(None)
            }
        }
    }
}

// Of an input that is JSON of another shape, as a whole or in the step of this number.
fn push_shape(line: &mut String, at: usize, value: Option<Value>) -> Result<(), AllocError>
    ensures { OnOk result (Adds line.old line.new (shape_line at (option_map view value))) }
{
    match value {
        None => line.push_str("record: not JSON"),
        Some(value) => {
            if at == 0 {
                push_whole(line, &value)
            } else {
                push_step_fault(line, at, &value)
            }
        }
    }
}

/// Whether the input begins as a schedule does: with one of these words or signs, or with a digit.
#[tactic(auto, unfolding(crate::specs::NoRecords::begins_schedule))]
pub fn begins_schedule(bytes: &[u8]) -> bool
    ensures { result ≡ begins_schedule bytes.now }
{
    bytes.starts_with(b"members ")
        || bytes.starts_with(b"cells ")
        || bytes.starts_with(b"batch ")
        || bytes.starts_with(b"all ")
        || bytes.starts_with(b"#")
        || begins_number(bytes)
}

fn begins_number(bytes: &[u8]) -> bool
    ensures { result ≡ begins_number bytes.now }
{
    match bytes.first() {
        Some(byte) => b'0' <= *byte && *byte <= b'9',
        None => false,
    }
}

impl fmt::Display for NoRecord {
    ghost use Rattle.std.specs.Prelude.{Some};

    ghost output = { λ told. Some told };

    fn fmt<W: fmt::Write>(&self, f: &mut fmt::Formatter<W>) -> fmt::Result {
        f.write_str(self.line.as_str())
    }
}
