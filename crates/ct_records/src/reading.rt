//! From the text of a record to what it says.

ghost use Rattle.std.specs.Prelude.{◌≡◌, ◌<◌, ◌≤◌, length, map, option_map, Err, IfSome};
ghost use Rattle.serde_json.specs.View.{view, members_view};
ghost use Rattle.ct_names.specs.declared.limit.TheConstants.{MAX_BOUND};
ghost use Rattle.ct_records.specs.Gives.{Gives};
ghost use Rattle.ct_records.specs.View.{rehearsal_of};
ghost use Rattle.ct_records.specs.Script.{list_in, count_of, whole_of, byte_of, value_of, command_of, long_step, step_of, step_in};
ghost use Rattle.ct_records.specs.Script.{keys, bound_in, steps_of, rehearsal_in, of_value, max_len, script};

use crate::read_fault::ReadFault;
use crate::scan::{commanded_step, named_command, numbered_step, short_step};
use crate::scanning::scanned;
use crate::script::Script;
use crate::version::{BOUNDED, FIRST, LATEST, since};
use ct_model::Step;
use ct_names::{Command, Group, MAX_BOUND, MAX_CELLS, MAX_MEMBERS, Member};
use serde_json::{Map, Value};
use std::alloc::Global;

/// How many bytes a record may have.
pub const MAX_LEN: usize = 67_108_864;

// The record as a whole has another shape.
const ODD: ReadFault = ReadFault::Shape { at: 0 };

/// What the record says, or its first fault.
#[tactic(auto, unfolding(crate::specs::Script::script))]
pub fn read_record(alloc: Global, bytes: &[u8]) -> Result<Script, ReadFault>
    ensures exact { Gives rehearsal_of result (script bytes.now) }
    // Memory is refused in place of other faults only.
    ensures too_long { max_len < length bytes.now → result ≡ Err ReadFault.TooLong }
{
    if bytes.len() > MAX_LEN {
        return Err(ReadFault::TooLong);
    }
    if let Some(script) = scanned(alloc, bytes)? {
        return Ok(script);
    }
    match Value::from_slice(alloc, bytes) {
        Ok(value) => value_script(alloc, &value),
        Err(error) => {
            if error.is_memory() {
                Err(ReadFault::OutOfMemory)
            } else {
                Err(ReadFault::NotJson)
            }
        }
    }
}

#[tactic(auto, unfolding(crate::specs::Script::of_value))]
fn value_script(alloc: Global, value: &Value) -> Result<Script, ReadFault>
    ensures { Gives rehearsal_of result (of_value (view value.now)) }
{
    let members = value.as_object().ok_or(ODD)?;
    let version = number(value.get("version").ok_or(ODD)?).ok_or(ODD)?;
    if version < FIRST || version > LATEST {
        return Err(ReadFault::Version);
    }
    if count(members) != keys(version) {
        return Err(ODD);
    }
    script_in(alloc, version, value)
}

#[tactic(auto, using(crate::proofs::Entries::count_of_members))]
fn count(members: &Map<String, Value>) -> usize
    ensures { result ≡ count_of (members_view members.now.entries) }
{
    members.len()
}

// How many keys a record of the version has.
fn keys(version: u64) -> usize
    ensures { result ≡ keys version }
{
    if version == BOUNDED { 5 } else { 4 }
}

#[tactic(auto, unfolding(crate::specs::Script::rehearsal_in))]
fn script_in(alloc: Global, version: u64, value: &Value) -> Result<Script, ReadFault>
    ensures { Gives rehearsal_of result (rehearsal_in version (view value.now)) }
{
    let n = whole(value.get("n").ok_or(ODD)?, 1, MAX_MEMBERS as u64).ok_or(ODD)?;
    let group = Group::new(n as u8).ok_or(ODD)?;
    let batch = bound(version, value).ok_or(ODD)?;
    let cells = whole(value.get("cells").ok_or(ODD)?, 0, MAX_CELLS as u64).ok_or(ODD)?;
    let list = entries(value.get("steps").ok_or(ODD)?).ok_or(ODD)?;
    let steps = steps(alloc, version, list)?;
    Ok(Script {
        group,
        cells: cells as u16,
        batch,
        steps,
    })
}

// The bound on a proposal: named, or the largest.
#[tactic(auto, unfolding(crate::specs::Script::bound_in))]
fn bound(version: u64, value: &Value) -> Option<u32>
    ensures value { result ≡ bound_in version (view value.now) }
    ensures some { IfSome result (λ bound. 1 ≤ bound) }
    ensures few { IfSome result (λ bound. bound ≤ MAX_BOUND) }
{
    if version != BOUNDED {
        return Some(MAX_BOUND);
    }
    let bound = whole(value.get("batch")?, 1, MAX_BOUND as u64)?;
    Some(bound as u32)
}

// The steps of a record of the version, or the fault of the first that is none.
fn steps(alloc: Global, version: u64, values: &[Value]) -> Result<Vec<Step>, ReadFault>
    ensures { Gives (λ steps. steps.items) result (steps_of version 1 (map view values.now)) }
{
    let mut steps = Vec::new(alloc);
    for (i, value) in values.iter().enumerate() {
        let Some(step) = step_in(version, value) else {
            return Err(ReadFault::Shape { at: i + 1 });
        };
        steps.push(step)?;
    }
    Ok(steps)
}

// The step, where records of the version have it.
#[tactic(auto, unfolding(crate::specs::Script::step_in))]
fn step_in(version: u64, value: &Value) -> Option<Step>
    ensures { result ≡ step_in version (view value.now) }
{
    let step = step(value)?;
    if since(step) <= version {
        Some(step)
    } else {
        None
    }
}

#[tactic(auto, using(crate::proofs::Entries::step_parts_short, crate::proofs::Entries::step_parts_long), unfolding(crate::specs::Script::step_of))]
fn step(value: &Value) -> Option<Step>
    ensures { result ≡ step_of (view value.now) }
{
    match entries(value)? {
        [name, p] => short_step(name.as_str()?.as_bytes(), byte(p)?),
        [name, p, last] => long_step(name.as_str()?.as_bytes(), byte(p)?, last),
        _ => None,
    }
}

// The step of a name, a member and one more entry.
#[tactic(auto, unfolding(crate::specs::Script::long_step))]
fn long_step(name: &[u8], p: Member, last: &Value) -> Option<Step>
    ensures { result ≡ long_step name.now p (view last.now) }
{
    match number(last) {
        Some(n) => numbered_step(name, p, n),
        None => commanded_step(name, p, command(last)?),
    }
}

#[tactic(auto, using(crate::proofs::Entries::command_parts_short, crate::proofs::Entries::command_parts_long), unfolding(crate::specs::Script::command_of))]
fn command(value: &Value) -> Option<Command>
    ensures { result ≡ command_of (view value.now) }
{
    match entries(value)? {
        [name, register, last] => named_command(
            name.as_str()?.as_bytes(),
            byte(register)?,
            number(last)?,
        ),
        _ => None,
    }
}

// The entries of an array.
#[tactic(auto, using(crate::proofs::Entries::list_of_items))]
fn entries(value: &Value) -> Option<&[Value]>
    ensures { option_map (λ list. map view list.now) result ≡ list_in (view value.now) }
{
    match value.as_array() {
        Some(list) => Some(list.as_slice()),
        None => None,
    }
}

fn byte(value: &Value) -> Option<u8>
    ensures { result ≡ byte_of (view value.now) }
{
    let n = whole(value, 0, 255)?;
    Some(n as u8)
}

fn number(value: &Value) -> Option<u64>
    ensures { result ≡ value_of (view value.now) }
{
    whole(value, 0, u64::MAX)
}

// The whole number, where it is within the range.
#[tactic(auto, unfolding(crate::specs::Script::whole_of))]
fn whole(value: &Value, low: u64, high: u64) -> Option<u64>
    ensures value { result ≡ whole_of low high (view value.now) }
    ensures within { IfSome result (λ n. (low ≤ n) × (n ≤ high)) }
{
    let n = value.as_u64()?;
    if low <= n && n <= high { Some(n) } else { None }
}
