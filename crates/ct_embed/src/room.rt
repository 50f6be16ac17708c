//! Lists that are copied into the room that a caller gives.

ghost use Rattle.std.specs.Prelude.{◌≡◌, ◌≤◌, length, map, option_map};
ghost use Rattle.ct_embed.specs.MessageCodes.{message_code};
ghost use Rattle.ct_embed.specs.StepCodes.{step_code};
ghost use Rattle.ct_embed.specs.Rooms.{count_of, filled, written};

use crate::message_code::MessageCode;
use crate::step_code::StepCode;
use ct_model::Step;
use ct_names::{Message, REGISTERS, Serial};
use ct_table::Table;

/// What is told in place of a number of items where there is no list.
pub(crate) const NONE: usize = usize::MAX;

// Copies bytes.
pub(crate) fn copy_bytes(list: &[u8], room: &mut [u8]) -> usize
    ensures count { result ≡ length list.now }
    ensures room { room.new ≡ written list.now room.old }
{
    let n = list.len().min(room.len());
    room[..n].copy_from_slice(&list[..n]);
    list.len()
}

// Copies serials.
pub(crate) fn copy_serials(list: Option<&[Serial]>, room: &mut [Serial]) -> usize
    ensures count { result ≡ count_of (option_map (λ l. l.now) list.entry) }
    ensures room { room.new ≡ filled (option_map (λ l. l.now) list.entry) room.old }
{
    let Some(list) = list else {
        return NONE;
    };
    let n = list.len().min(room.len());
    room[..n].copy_from_slice(&list[..n]);
    list.len()
}

// Copies messages, by their numbers.
pub(crate) fn copy_messages(list: Option<&[Message]>, room: &mut [MessageCode]) -> usize
    ensures count { result ≡ count_of (option_map (λ l. l.now) list.entry) }
    ensures room { room.new ≡ filled (option_map (λ l. map message_code l.now) list.entry) room.old }
{
    let Some(list) = list else {
        return NONE;
    };
    fill_messages(list, room);
    list.len()
}

fn fill_messages(list: &[Message], room: &mut [MessageCode])
    ensures { room.new ≡ written (map message_code list.now) room.old }
{
    let n = list.len().min(room.len());
    for i in 0..n {
        room[i] = MessageCode::of(&list[i]);
    }
}

// Copies steps, by their numbers.
pub(crate) fn copy_steps(list: &[Step], room: &mut [StepCode]) -> usize
    ensures count { result ≡ length list.now }
    ensures room { room.new ≡ written (map step_code list.now) room.old }
{
    let n = list.len().min(room.len());
    for i in 0..n {
        room[i] = StepCode::of(&list[i]);
    }
    list.len()
}

// Copies registers.
pub(crate) fn copy_table(table: Option<&Table>, room: &mut [u64]) -> usize
    ensures count { result ≡ count_of (option_map (λ t. t.now) table.entry) }
    ensures room { room.new ≡ filled (option_map (λ t. t.now) table.entry) room.old }
{
    let Some(table) = table else {
        return NONE;
    };
    let count = registers(table);
    fill_registers(table, count, room);
    count
}

fn fill_registers(table: &Table, count: usize, room: &mut [u64])
    requires value { count ≡ length table.now }
    requires few { count ≤ 16 }
    ensures { room.new ≡ written table.now room.old }
{
    let n = count.min(room.len());
    for i in 0..n {
        room[i] = table.get(i as u8).unwrap_or(0);
    }
}

// How many registers there are.
fn registers(table: &Table) -> usize
    ensures value { result ≡ length table.now }
    ensures few { result ≤ 16 }
{
    // For their clauses: there is a last one, and none behind it.
    let _last = table.get(REGISTERS - 1);
    let _behind = table.get(REGISTERS);
    usize::from(REGISTERS)
}
