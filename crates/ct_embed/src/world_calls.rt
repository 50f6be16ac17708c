//! The calls of a world, for C. `bindings/ct.h` has them as C sees them.

ghost use Rattle.std.specs.Prelude.{◌≡◌, ◌≢◌, ◌≤◌, ◌↔◌, [], ◌∷◌, None, Some};
ghost use Rattle.std.specs.Prelude.{false, true, IfSome, length, map, drop, option_map, option_and_then};
ghost use Rattle.ct_model.specs.Cause.{cause};
ghost use Rattle.ct_model.specs.Rehearsal.{empty, state_of};
ghost use Rattle.ct_model.specs.Run.{run};
ghost use Rattle.ct_model.specs.Safe.{IsSafe};
ghost use Rattle.ct_world.specs.Driving.{next_local};
ghost use Rattle.ct_world.specs.Setup.{record_of};
ghost use Rattle.ct_world.specs.World.{IsDone};
ghost use Rattle.ct_embed.specs.Applying.{IsFirst, IsRefusalNumber};
ghost use Rattle.ct_embed.specs.LetterCodes.{letter_code};
ghost use Rattle.ct_embed.specs.MessageCodes.{message_code};
ghost use Rattle.ct_embed.specs.RefusalNumbers.{verdict_number};
ghost use Rattle.ct_embed.specs.Rooms.{count_of, filled};
ghost use Rattle.ct_embed.specs.Held.{world_in};
ghost use Rattle.ct_embed.specs.Seen.{steps_in, member_in, waiting_in, envelope_in, value_in};
ghost use Rattle.ct_embed.specs.Seen.{received_in, delivered_in, decided_in, table_in};
ghost use Rattle.ct_embed.specs.Opening.{IsBadSetup, IsNumber};
ghost use Rattle.ct_embed.specs.StandingCodes.{standing_code};
ghost use Rattle.ct_embed.specs.StepCodes.{code, next_code, step_code, step_of};

use crate::applied::Applied;
use crate::asked::asked;
use crate::held_world::HeldWorld;
use crate::letter_code::LetterCode;
use crate::message_code::MessageCode;
use crate::numbers::{ALREADY_OPEN, BAD_SETUP, BAD_STEP, BOARD, NOT_OPEN, OUT_OF_MEMORY};
use crate::own_world::OwnWorld;
use crate::refusal_number::refusal_number;
use crate::room::{NONE, copy_messages, copy_serials, copy_steps, copy_table};
use crate::standing_code::StandingCode;
use crate::step_code::StepCode;
use ct_names::Group;
use ct_world::Setup;
use std::alloc::Global;

/// Opens a world without steps.
#[unsafe(no_mangle)]
pub extern "C" fn ct_world_open(
    world: &mut HeldWorld,
    members: u8,
    cells: u16,
    bound: u32,
    alloc: Global,
) -> u32
    ensures open { IfSome (world_in world.old) (λ w. result ≡ ALREADY_OPEN) }
    ensures setup { world_in world.old ≡ None → (result ≡ BAD_SETUP) ↔ IsBadSetup members cells bound }
    ensures ok { result ≡ 0 → world_in world.new ≡ Some (empty (record { members = members; bound = bound }) cells) }
    ensures same { result ≢ 0 → world_in world.new ≡ world_in world.old }
    ensures err { IsNumber result (0 ∷ ALREADY_OPEN ∷ BAD_SETUP ∷ OUT_OF_MEMORY ∷ []) }
{
    if world.is_open {
        return ALREADY_OPEN;
    }
    let Some(setup) = setup_of(members, cells, bound) else {
        return BAD_SETUP;
    };
    let Ok(own) = OwnWorld::new(alloc, setup) else {
        return OUT_OF_MEMORY;
    };
    let Ok(own) = Box::new(alloc, own) else {
        return OUT_OF_MEMORY;
    };
    world.put(own);
    0
}

/// Closes the world, if it is open.
#[unsafe(no_mangle)]
pub extern "C" fn ct_world_close(world: &mut HeldWorld, alloc: Global)
    ensures { world_in world.new ≡ None }
{
    drop(world.take(alloc));
}

/// Makes a world of its own with the same setup and record.
#[unsafe(no_mangle)]
pub extern "C" fn ct_copy(from: &mut HeldWorld, into: &mut HeldWorld, alloc: Global) -> u32
    ensures closed { world_in from.old ≡ None → result ≡ NOT_OPEN }
    ensures open { world_in from.old ≢ None → IfSome (world_in into.old) (λ w. result ≡ ALREADY_OPEN) }
    ensures ok { result ≡ 0 → world_in into.new ≡ world_in from.old }
    ensures refusal { IsNumber result (0 ∷ NOT_OPEN ∷ ALREADY_OPEN ∷ OUT_OF_MEMORY ∷ BOARD ∷ []) }
    ensures err { result ≢ 0 → world_in into.new ≡ world_in into.old }
    ensures same { world_in from.new ≡ world_in from.old }
{
    // Both are looked at before one is written to, so that a world isn't copied into itself.
    if !from.is_open {
        return NOT_OPEN;
    }
    if into.is_open {
        return ALREADY_OPEN;
    }
    let Some(own) = from.take(alloc) else {
        return NOT_OPEN;
    };
    let answer = copy_into(&own, into, alloc);
    from.put(own);
    answer
}

fn copy_into(own: &OwnWorld, into: &mut HeldWorld, alloc: Global) -> u32
    ensures ok { result ≡ 0 → world_in into.new ≡ Some own.now }
    ensures refusal { IsNumber result (0 ∷ OUT_OF_MEMORY ∷ BOARD ∷ []) }
    ensures err { result ≢ 0 → world_in into.new ≡ world_in into.old }
{
    let copy = match own.copy(alloc) {
        Ok(copy) => copy,
        Err(refusal) => return refusal_number(refusal),
    };
    let Ok(copy) = Box::new(alloc, copy) else {
        return OUT_OF_MEMORY;
    };
    into.put(copy);
    0
}

/// Does the step with these numbers.
#[unsafe(no_mangle)]
pub extern "C" fn ct_apply(
    world: &mut HeldWorld,
    kind: u8,
    member: u8,
    a: u32,
    b: u8,
    c: u64,
    alloc: Global,
) -> Applied
    ensures closed { world_in world.old ≡ None → result.refusal ≡ NOT_OPEN }
    ensures unknown { IfSome (world_in world.old) (λ w. step_of (code kind member a b c) ≡ None →
        result.refusal ≡ BAD_STEP) }
    ensures allowed { IfSome (world_in world.old) (λ w. IfSome (step_of (code kind member a b c)) (λ step.
        result.refusal ≡ 0 → cause w step ≡ None)) }
    ensures done { IfSome (world_in world.old) (λ w. IfSome (step_of (code kind member a b c)) (λ step.
        result.refusal ≡ 0 → IfSome (world_in world.new) (λ new. IsDone w step new result.count))) }
    ensures stays { world.new.is_open ≡ world.old.is_open }
    ensures first { IfSome (world_in world.old) (λ w. result.refusal ≡ 0 → IsFirst w result.first result.count) }
    ensures refusal { IfSome (world_in world.old) (λ w. IfSome (step_of (code kind member a b c)) (λ step.
        result.refusal ≢ 0 → IsRefusalNumber w step result.refusal)) }
    ensures same { result.refusal ≢ 0 → world_in world.new ≡ world_in world.old }
    ensures none { result.refusal ≢ 0 → (result.first ≡ 0) × (result.count ≡ 0) }
    ensures runs { IfSome (world_in world.new) (λ w. run w.setting w.steps ≡ Some (state_of w)) }
    ensures safe { IfSome (world_in world.new) (λ w. IsSafe w.setting (state_of w)) }
{
    asked!(own in world, alloc else Applied::refused(NOT_OPEN) => {
        let step = StepCode::new(kind, member, a, b, c).step();
        let applied = match &step {
            None => Applied::refused(BAD_STEP),
            Some(step) => match own.apply(step) {
                Ok(sent) => Applied::done(sent),
                Err(refusal) => Applied::refused(refusal_number(refusal)),
            },
        };
        // For its clauses: the record is a run, and the state is safe.
        let _ = own.world().record();
        applied
    })
}

/// Why the step with these numbers would be refused.
#[unsafe(no_mangle)]
pub extern "C" fn ct_enabled(
    world: &mut HeldWorld,
    kind: u8,
    member: u8,
    a: u32,
    b: u8,
    c: u64,
    alloc: Global,
) -> u32
    ensures closed { world_in world.old ≡ None → result ≡ NOT_OPEN }
    ensures unknown { IfSome (world_in world.old) (λ w. step_of (code kind member a b c) ≡ None →
        result ≡ BAD_STEP) }
    ensures value { IfSome (world_in world.old) (λ w. IfSome (step_of (code kind member a b c)) (λ step.
        result ≡ verdict_number (cause w step))) }
    ensures same { world_in world.new ≡ world_in world.old }
{
    asked!(own in world, alloc else NOT_OPEN => match StepCode::new(kind, member, a, b, c).step() {
        None => BAD_STEP,
        Some(step) => match own.world().enabled(&step) {
            Ok(()) => 0,
            Err(refusal) => refusal_number(refusal),
        },
    })
}

/// The step that a driver does next at a member.
#[unsafe(no_mangle)]
pub extern "C" fn ct_next(world: &mut HeldWorld, member: u8, alloc: Global) -> StepCode
    ensures value { result ≡ next_code (option_and_then (λ w. next_local w member) (world_in world.old)) }
    ensures same { world_in world.new ≡ world_in world.old }
{
    asked!(own in world, alloc else StepCode::none() => match own.world().next_local(member) {
        None => StepCode::none(),
        Some(step) => StepCode::of(&step),
    })
}

/// Where a member stands.
#[unsafe(no_mangle)]
pub extern "C" fn ct_standing_of(world: &mut HeldWorld, member: u8, alloc: Global) -> StandingCode
    ensures value { result ≡ standing_code member (member_in (world_in world.old) member) }
    ensures same { world_in world.new ≡ world_in world.old }
{
    asked!(own in world, alloc else StandingCode::none() => StandingCode::of(own.world(), member))
}

/// The steps of the record from a place on.
#[unsafe(no_mangle)]
pub extern "C" fn ct_steps(
    world: &mut HeldWorld,
    from: usize,
    room: &mut [StepCode],
    alloc: Global,
) -> usize
    ensures count { result ≡ count_of (steps_in (world_in world.old) from) }
    ensures room { room.new ≡ filled (option_map (map step_code) (steps_in (world_in world.old) from)) room.old }
    ensures same { world_in world.new ≡ world_in world.old }
{
    asked!(own in world, alloc else NONE => {
        let record = own.world().record();
        copy_steps(&record[from.min(record.len())..], room)
    })
}

/// The envelope of a serial.
#[unsafe(no_mangle)]
pub extern "C" fn ct_envelope(world: &mut HeldWorld, serial: u32, alloc: Global) -> LetterCode
    ensures value { result ≡ letter_code (envelope_in (world_in world.old) serial) }
    ensures same { world_in world.new ≡ world_in world.old }
{
    asked!(own in world, alloc else LetterCode::of(None) => LetterCode::of(own.world().letter(serial)))
}

/// The registers of a member.
#[unsafe(no_mangle)]
pub extern "C" fn ct_table(
    world: &mut HeldWorld,
    member: u8,
    room: &mut [u64],
    alloc: Global,
) -> usize
    ensures count { result ≡ count_of (table_in (world_in world.old) member) }
    ensures room { room.new ≡ filled (table_in (world_in world.old) member) room.old }
    ensures same { world_in world.new ≡ world_in world.old }
{
    asked!(own in world, alloc else NONE => copy_table(own.world().table(member), room))
}

/// What waits at a member.
#[unsafe(no_mangle)]
pub extern "C" fn ct_waiting(
    world: &mut HeldWorld,
    member: u8,
    room: &mut [u32],
    alloc: Global,
) -> usize
    ensures count { result ≡ count_of (waiting_in (world_in world.old) member) }
    ensures room { room.new ≡ filled (waiting_in (world_in world.old) member) room.old }
    ensures same { world_in world.new ≡ world_in world.old }
{
    asked!(own in world, alloc else NONE => copy_serials(own.world().waiting(member), room))
}

/// The value that an envelope carries.
#[unsafe(no_mangle)]
pub extern "C" fn ct_value(
    world: &mut HeldWorld,
    serial: u32,
    room: &mut [MessageCode],
    alloc: Global,
) -> usize
    ensures count { result ≡ count_of (value_in (world_in world.old) serial) }
    ensures room { room.new ≡ filled (option_map (map message_code) (value_in (world_in world.old) serial)) room.old }
    ensures same { world_in world.new ≡ world_in world.old }
{
    asked!(own in world, alloc else NONE => copy_messages(own.world().value(serial), room))
}

/// What a member received.
#[unsafe(no_mangle)]
pub extern "C" fn ct_received(
    world: &mut HeldWorld,
    member: u8,
    room: &mut [MessageCode],
    alloc: Global,
) -> usize
    ensures count { result ≡ count_of (received_in (world_in world.old) member) }
    ensures room { room.new ≡ filled (option_map (map message_code) (received_in (world_in world.old) member)) room.old }
    ensures same { world_in world.new ≡ world_in world.old }
{
    asked!(own in world, alloc else NONE => copy_messages(own.world().received(member), room))
}

/// What a member delivered.
#[unsafe(no_mangle)]
pub extern "C" fn ct_delivered(
    world: &mut HeldWorld,
    member: u8,
    room: &mut [MessageCode],
    alloc: Global,
) -> usize
    ensures count { result ≡ count_of (delivered_in (world_in world.old) member) }
    ensures room { room.new ≡ filled (option_map (map message_code) (delivered_in (world_in world.old) member)) room.old }
    ensures same { world_in world.new ≡ world_in world.old }
{
    asked!(own in world, alloc else NONE => copy_messages(own.world().delivered(member), room))
}

/// The decision that a member got for an instance.
#[unsafe(no_mangle)]
pub extern "C" fn ct_decided(
    world: &mut HeldWorld,
    member: u8,
    instance: u32,
    room: &mut [MessageCode],
    alloc: Global,
) -> usize
    ensures count { result ≡ count_of (decided_in (world_in world.old) member instance) }
    ensures room { room.new ≡ filled (option_map (map message_code) (decided_in (world_in world.old) member instance)) room.old }
    ensures same { world_in world.new ≡ world_in world.old }
{
    asked!(own in world, alloc else NONE => copy_messages(own.world().decided(member, instance), room))
}

// The setup of these three, if they are one.
fn setup_of(members: u8, cells: u16, bound: u32) -> Option<Setup>
    ensures none { result ≡ None ↔ IsBadSetup members cells bound }
    ensures some { IfSome result (λ setup. record_of setup [] ≡ empty (record { members = members; bound = bound }) cells) }
{
    Setup::new(Group::new(members)?, cells, bound)
}
