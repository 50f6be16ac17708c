//! What is wrong with a record as a whole.

ghost use Rattle.std.specs.Prelude.{◌≡◌, OnOk, codes, option_map};
ghost use Rattle.serde_json.specs.Find.{get};
ghost use Rattle.serde_json.specs.View.{view, members_view};
ghost use Rattle.ct_text.specs.Adds.{Adds};
ghost use Rattle.ct_told.specs.OddRecords.{first_odd, first_unknown, has_number, in_version, is_key, keys_line, missing_line, odd_line};
ghost use Rattle.ct_told.specs.OddRecords.{range_line, unknown_line, versions_line, wanted_line, whole_line, with_version};

use crate::given_name::push_given;
use crate::key::{Key, key_text};
use ct_names::{MAX_BOUND, MAX_CELLS, MAX_MEMBERS};
use serde_json::{Map, Value};
use std::alloc::AllocError;

// The version that names the bound on a proposal.
const BOUNDED: u64 = 3;

/// Puts behind the line what is wrong with the record as a whole.
#[tactic(auto, unfolding(crate::specs::OddRecords::whole_line))]
pub(crate) fn push_whole(line: &mut String, value: &Value) -> Result<(), AllocError>
    ensures { OnOk result (Adds line.old line.new (whole_line (view value.now))) }
{
    match value.as_object() {
        None => line.push_str("record: not an object"),
        Some(members) => push_object(line, members, value),
    }
}

// Of an object with these members.
fn push_object(
    line: &mut String,
    members: &Map<String, Value>,
    value: &Value,
) -> Result<(), AllocError>
    ensures { OnOk result (Adds line.old line.new
        (with_version (get (codes "version") (view value.now)) (members_view members.now.entries) (view value.now))) }
{
    match value.get("version") {
        None => push_missing(line, "version"),
        Some(version) => push_in_version(line, version.as_u64(), members, value),
    }
}

// Of an object whose version is this number, or none.
fn push_in_version(
    line: &mut String,
    version: Option<u64>,
    members: &Map<String, Value>,
    value: &Value,
) -> Result<(), AllocError>
    ensures { OnOk result (Adds line.old line.new (in_version version (members_view members.now.entries) (view value.now))) }
{
    let Some(version) = version else {
        return push_versions(line);
    };
    match first_unknown(version, members) {
        Some(key) => push_unknown(line, version, key),
        None => push_odd(line, first_odd(version, value), value),
    }
}

/// Puts behind the line which versions there are.
pub(crate) fn push_versions(line: &mut String) -> Result<(), AllocError>
    ensures { OnOk result (Adds line.old line.new versions_line) }
{
    line.push_str("record: version 1, 2 or 3 is wanted")
}

fn push_missing(line: &mut String, key: &str) -> Result<(), AllocError>
    ensures { OnOk result (Adds line.old line.new (missing_line key.now)) }
{
    write!(line, "record: no key \"{key}\"")
}

fn push_unknown(line: &mut String, version: u64, key: &str) -> Result<(), AllocError>
    ensures { OnOk result (Adds line.old line.new (unknown_line version key.now)) }
{
    line.push_str("record: ")?;
    push_given(line, "\"", "key", key)?;
    write!(line, " is no key of version {version}")
}

// Of a key that is missing or has another value.
#[tactic(auto, unfolding(crate::specs::OddRecords::odd_line))]
fn push_odd(line: &mut String, key: Key, value: &Value) -> Result<(), AllocError>
    ensures { OnOk result (Adds line.old line.new (odd_line key (view value.now))) }
{
    match value.get(key_text(key)) {
        None => push_missing(line, key_text(key)),
        Some(_) => push_wanted(line, key),
    }
}

fn push_wanted(line: &mut String, key: Key) -> Result<(), AllocError>
    ensures { OnOk result (Adds line.old line.new (wanted_line key)) }
{
    match key {
        Key::Batch => push_range(line, key, 1, MAX_BOUND as u64),
        Key::Cells => push_range(line, key, 0, MAX_CELLS as u64),
        Key::Members => push_range(line, key, 1, MAX_MEMBERS as u64),
        Key::Steps => line.push_str("record: steps: a list is wanted"),
    }
}

fn push_range(line: &mut String, key: Key, low: u64, high: u64) -> Result<(), AllocError>
    ensures { OnOk result (Adds line.old line.new (range_line key low high)) }
{
    let name = key_text(key);
    write!(line, "record: {name}: {low} to {high} is wanted")
}

// The first of the keys that records of the version don't have.
fn first_unknown<'v>(version: u64, members: &'v Map<String, Value>) -> Option<&'v str>
    ensures { option_map (λ key. key.now) result ≡ first_unknown version (members_view members.now.entries) }
{
    for (key, _) in members.iter() {
        if !is_key(version, key.as_str()) {
            return Some(key.as_str());
        }
    }
    None
}

// Whether records of the version have the key.
fn is_key(version: u64, key: &str) -> bool
    ensures { result ≡ is_key version key.now }
{
    key == "cells"
        || key == "n"
        || key == "steps"
        || key == "version"
        || version == BOUNDED && key == "batch"
}

// The first of the keys that is missing or has another value than is wanted, where one is.
fn first_odd(version: u64, value: &Value) -> Key
    ensures { result ≡ first_odd version (view value.now) }
{
    if version == BOUNDED && !has_number(value, Key::Batch, 1, MAX_BOUND as u64) {
        Key::Batch
    } else if !has_number(value, Key::Cells, 0, MAX_CELLS as u64) {
        Key::Cells
    } else if !has_number(value, Key::Members, 1, MAX_MEMBERS as u64) {
        Key::Members
    } else {
        Key::Steps
    }
}

// Whether the key has a whole number in the range.
#[tactic(auto, unfolding(ct_records::specs::Script::whole_of))]
fn has_number(value: &Value, key: Key, low: u64, high: u64) -> bool
    ensures { result ≡ has_number key low high (view value.now) }
{
    match value.get(key_text(key)) {
        None => false,
        Some(found) => match found.as_u64() {
            None => false,
            Some(n) => low <= n && n <= high,
        },
    }
}
