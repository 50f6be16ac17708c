//! What was lost between members that are up.

ghost use Rattle.std.specs.Prelude.{◌≡◌, ℕ, ◌+◌, ◌<◌, ◌≤◌, ◌||◌, Bool, IfOk, IsTrue, Some, false, length, slice_index_or};
ghost use Rattle.ct_names.specs.Group.{is_member};
ghost use Rattle.ct_model.specs.Rehearsal.{state_of};
ghost use Rattle.ct_settled.specs.Hindrance.{first_lost, has_message, is_in_round, is_lost, is_receipt, is_up, is_up_if, lost, lost_at};
ghost use Rattle.ct_settled.specs.Hindrance.{needs, was_received};
ghost use Rattle.ct_settled.specs.Marks.{AreMarked};

use crate::hindrance::Hindrance;
use ct_model::Step;
use ct_names::{Instance, Member, Message, Round, Serial};
use ct_play::Stage;
use ct_world::{Wire, World};
use std::alloc::{AllocError, Global};

/// The first envelope from one that is up to another that never received it, of those that their members could use; where there is none,
/// the first of all. It looks through the record once, and through what was sent.
pub(crate) fn lost(alloc: Global, stage: &Stage) -> Result<Option<Hindrance>, AllocError>
    ensures { IfOk result (λ h. h ≡ lost stage.now.rehearsal) }
{
    let received = received(alloc, stage.world())?;
    let needed = first_lost(stage, &received, true);
    Ok(needed.or(first_lost(stage, &received, false)))
}

// The first that was lost; if that is asked, of those that are needed.
#[tactic(auto, using(crate::proofs::Firsts::first_steps), unfolding(crate::specs::Hindrance::first_lost, ct_names::specs::Group::members))]
fn first_lost(stage: &Stage, received: &[bool], needed: bool) -> Option<Hindrance>
    requires { AreMarked stage.now.rehearsal received.now }
    ensures { result ≡ first_lost stage.now.rehearsal needed }
{
    for i in 0..stage.world().sent() {
        if let Some(hindrance) = lost_at(stage, received, needed, i + 1) {
            return Some(hindrance);
        }
    }
    None
}

// The serial, where its envelope was lost and, if that is asked, is needed.
#[tactic(auto, unfolding(crate::specs::Hindrance::lost_at))]
fn lost_at(stage: &Stage, received: &[bool], needed: bool, serial: Serial) -> Option<Hindrance>
    requires marked { AreMarked stage.now.rehearsal received.now }
    requires first { 1 ≤ serial }
    requires sent { serial ≤ length (state_of stage.now.rehearsal).sent }
    ensures { result ≡ lost_at stage.now.rehearsal needed serial }
{
    let world = stage.world();
    let letter = world.letter(serial)?;
    if is_lost(stage, received, serial, letter.to)
        && (!needed || needs(world, letter.to, &letter.wire))
    {
        Some(Hindrance::Lost(letter.to, serial))
    } else {
        None
    }
}

// Whether a step of one that is up sent it to this one, which is up, and never received it.
#[tactic(auto, unfolding(crate::specs::Hindrance::is_lost))]
fn is_lost(stage: &Stage, received: &[bool], serial: Serial, member: Member) -> bool
    requires marked { AreMarked stage.now.rehearsal received.now }
    requires first { 1 ≤ serial }
    requires sent { serial ≤ length (state_of stage.now.rehearsal).sent }
    ensures value { result ≡ is_lost stage.now.rehearsal serial member }
    ensures member { IsTrue result → IsTrue (is_member stage.now.rehearsal.setting.members member) }
{
    let world = stage.world();
    let from_up = match stage.sender(serial) {
        None => false,
        Some(sender) => is_up(world, sender),
    };
    from_up && is_up(world, member) && !received[serial as usize - 1]
}

fn is_up(world: &World, member: Member) -> bool
    ensures { result ≡ is_up world.now.rehearsal member }
{
    world.group().has(member) && !world.crashed(member)
}

// ---- what is needed

// Whether the member could use it.
fn needs(world: &World, member: Member, wire: &Wire) -> bool
    requires { IsTrue (is_member world.now.rehearsal.setting.members member) }
    ensures { result ≡ needs world.now.rehearsal member wire.now }
{
    match *wire {
        Wire::Data(message) => !has_message(world, member, message),
        Wire::Est {
            instance,
            round,
            ..
        } => is_in_round(world, member, instance, round),
        Wire::Prop {
            instance,
            round,
            ..
        } => is_in_round(world, member, instance, round),
        Wire::Ack {
            instance,
            round,
            ..
        } => is_in_round(world, member, instance, round),
        Wire::Nack {
            instance,
            round,
            ..
        } => is_in_round(world, member, instance, round),
        Wire::Dec { instance, .. } => world.decided(member, instance).is_none(),
    }
}

#[tactic(auto, unfolding(crate::specs::Hindrance::has_message))]
fn has_message(world: &World, member: Member, message: Message) -> bool
    requires { IsTrue (is_member world.now.rehearsal.setting.members member) }
    ensures { result ≡ has_message world.now.rehearsal member message.origin message.number }
{
    let received = world.received(member).unwrap_or(&[]);
    received.iter().any(|other| other.origin() == message.origin()
        && other.number() == message.number())
}

// Whether the instance is open, and this its round.
#[tactic(auto, unfolding(crate::specs::Hindrance::is_in_round))]
fn is_in_round(world: &World, member: Member, instance: Instance, round: Round) -> bool
    requires { IsTrue (is_member world.now.rehearsal.setting.members member) }
    ensures { result ≡ is_in_round world.now.rehearsal member instance round }
{
    match (world.instance(member), world.round(member)) {
        (Some((last, _)), Some((current, _))) => last == instance && current == round,
        _ => false,
    }
}

// ---- what was received

// Of each serial, whether its member received it: in one pass over the record.
fn received(alloc: Global, world: &World) -> Result<Vec<bool>, AllocError>
    ensures { IfOk result (λ marks. AreMarked world.now.rehearsal marks.items) }
{
    let mut received = Vec::new(alloc);
    received.resize(world.sent() as usize, false)?;
    for step in world.record() {
        mark(world, &mut received, step);
    }
    Ok(received)
}

// Marks the serial, where the step is its receipt.
fn mark(world: &World, received: &mut [bool], step: &Step)
    ensures { (i : ℕ) → i < length received.old → slice_index_or received.new i false
        ≡ (slice_index_or received.old i false || is_receipt world.now.rehearsal (i + 1) step.now) }
{
    if let Step::Receive(member, serial) = *step {
        if let Some(letter) = world.letter(serial) {
            if letter.to == member && serial as usize <= received.len() {
                received[serial as usize - 1] = true;
            }
        }
    }
}
