//! Whether a run has the deliveries of logs.

ghost use Rattle.std.specs.Prelude.{◌≡◌, ◌≤◌, ℕ, Some, length, slice_get, true};
ghost use Rattle.ct_names.specs.Group.{IsMember};
ghost use Rattle.ct_names.specs.Message.{Message as Plain};
ghost use Rattle.ct_model.specs.Rehearsal.{state_of};
ghost use Rattle.ct_model.specs.Safe.{delivered_by};
ghost use Rattle.ct_order.specs.declared.reading.LogEnd.{LogEnd as End};
ghost use Rattle.ct_order.specs.Reading.{standings_of};
ghost use Rattle.ct_enact.specs.Enacted.{HasLength, IsPlaced, Matches};

use ct_names::{MAX_MEMBERS, Member, Message};
use ct_order::{Judged, LogEnd, Table};
use ct_world::World;

// Whether the run has the deliveries of the logs.
pub(crate) fn matches(judged: &Judged, world: &World) -> bool
    ensures { result ≡ true → Matches judged.now.table (standings_of judged.now.ends.items) world.now.rehearsal }
{
    let first = furthest(world);
    match world.delivered(first) {
        Some(all) => {
            if !have_lengths(&judged.ends, world) {
                return false;
            }
            if !is_longest(world, all.len()) {
                return false;
            }
            have_origins(&judged.table, all)
        }
        None => false,
    }
}

// A member that delivered the most.
fn furthest(world: &World) -> Member {
    let mut first = 1u8;
    let mut most = 0usize;
    for place in 0..world.group().n() {
        let count = world.delivered(place + 1).map_or(0, |all| all.len());
        if count > most {
            first = place + 1;
            most = count;
        }
    }
    first
}

// Whether no member delivered more.
fn is_longest(world: &World, most: usize) -> bool
    ensures { result ≡ true → (p : ℕ) → IsMember world.now.rehearsal.setting.members p →
        length (delivered_by (state_of world.now.rehearsal) p) ≤ most }
{
    for place in 0..world.group().n() {
        match world.delivered(place + 1) {
            Some(all) if all.len() <= most => {}
            _ => return false,
        }
    }
    true
}

// Whether the member of each log delivered as many messages as its process had at most.
fn have_lengths(ends: &[LogEnd], world: &World) -> bool
    ensures { result ≡ true → (i : ℕ) (end : End) → slice_get ends.now i ≡ Some end → HasLength world.now.rehearsal i end.standing.most }
{
    for (i, end) in ends.iter().enumerate() {
        if !has_length(world, i, end.standing.most) {
            return false;
        }
    }
    true
}

// The same of the log at this place.
fn has_length(world: &World, i: usize, most: u64) -> bool
    ensures { result ≡ true → HasLength world.now.rehearsal i most }
{
    if i >= usize::from(MAX_MEMBERS) {
        return false;
    }
    match world.delivered(i as u8 + 1) {
        Some(all) => all.len() as u64 == most,
        None => false,
    }
}

// Whether the origin of each of the messages is the process that broadcasts what the logs deliver at its place.
fn have_origins(table: &Table, all: &[Message]) -> bool
    ensures { result ≡ true → (k : ℕ) (m : Plain) → slice_get all.now k ≡ Some m → IsPlaced table.now k m }
{
    for (k, message) in all.iter().enumerate() {
        if !has_origin(table, k as u64, *message) {
            return false;
        }
    }
    true
}

// The same of the message at this place.
fn has_origin(table: &Table, k: u64, message: Message) -> bool
    ensures { result ≡ true → IsPlaced table.now k message }
{
    let Some(told) = table.order.get(&k) else {
        return false;
    };
    match table.sent.get(told.word.as_str()) {
        Some(place) => u64::from(message.origin()) == u64::from(place.log) + 1,
        None => false,
    }
}
