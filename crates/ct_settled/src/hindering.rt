//! What stands in the way of all being done.

ghost use Rattle.std.specs.Prelude.{◌≡◌, ◌≤◌, IfOk, IsTrue, None, length};
ghost use Rattle.ct_names.specs.Group.{is_member, members};
ghost use Rattle.ct_model.specs.Rehearsal.{state_of};
ghost use Rattle.ct_rest.specs.Rest.{members_up};
ghost use Rattle.ct_settled.specs.Hindrance.{acts, are_settled, awaits, choices, first_of, hindered, hindrance, is_enough, obstacle, told};
ghost use Rattle.ct_settled.specs.Settled.{AreDone};

use crate::hindrance::Hindrance;
use crate::laws::law_hindrance;
use crate::losing::lost;
use ct_choices::first_waiting;
use ct_model::{Phase, Step};
use ct_names::{Member, Refusal};
use ct_play::Stage;
use ct_progress::is_settled;
use ct_world::World;
use std::alloc::{AllocError, Global};

/// What stands in the way of all being done on the stage; None exactly where all is done, as `law_hindrance` says. The members are
/// gone through in order: what waits at one that is up, what it could do, and for whom it waits in vain; then, whether a majority is
/// up, and what was lost, first what its member could use.
#[tactic(auto, unfolding(crate::specs::Hindrance::hindrance))]
pub fn hindrance_of(alloc: Global, stage: &Stage) -> Result<Option<Hindrance>, AllocError>
    ensures told { IfOk result (λ h. h ≡ hindrance stage.now) }
    ensures done { IfOk result (λ h. h ≡ None → AreDone stage.now) }
{
    law_hindrance();
    let world = stage.world();
    // For their clauses: what is known of a world's record, its bound and its group.
    let _ = world.record();
    let _ = world.bound();
    let _ = world.group().n();
    if are_settled(world) {
        return Ok(None);
    }
    obstacle(alloc, stage)
}

// Whether each member crashed or is done.
#[tactic(auto, using(crate::proofs::Firsts::all_passed), unfolding(crate::specs::Hindrance::are_settled, ct_names::specs::Group::members))]
fn are_settled(world: &World) -> bool
    ensures { result ≡ are_settled world.now.rehearsal }
{
    for i in 0..world.group().n() {
        if !is_settled(world, i + 1) {
            return false;
        }
    }
    true
}

// What is in the way where not all is done.
#[tactic(auto, unfolding(crate::specs::Hindrance::obstacle))]
fn obstacle(alloc: Global, stage: &Stage) -> Result<Option<Hindrance>, AllocError>
    ensures { IfOk result (λ h. h ≡ obstacle stage.now.rehearsal) }
{
    let world = stage.world();
    if let Some(hindrance) = first_hindered(world) {
        return Ok(Some(hindrance));
    }
    if is_enough(world) {
        lost(alloc, stage)
    } else {
        Ok(Some(Hindrance::Few))
    }
}

// Whether a majority is up.
#[tactic(auto, unfolding(crate::specs::Hindrance::is_enough))]
fn is_enough(world: &World) -> bool
    ensures { result ≡ is_enough world.now.rehearsal }
{
    world.group().majority() <= up_count(world)
}

// How many members are up.
#[tactic(auto, using(crate::proofs::Firsts::one_counted, crate::proofs::Firsts::none_counted), unfolding(ct_names::specs::Group::members))]
fn up_count(world: &World) -> u8
    ensures { result ≡ length (members_up world.now.rehearsal.setting (state_of world.now.rehearsal)) }
{
    let mut count = 0;
    for i in 0..world.group().n() {
        if !world.crashed(i + 1) {
            count += 1;
        }
    }
    count
}

// ---- a member

// What is in the way of the first member that something is in the way of.
#[tactic(auto, using(crate::proofs::Firsts::first_steps), unfolding(ct_names::specs::Group::members))]
fn first_hindered(world: &World) -> Option<Hindrance>
    ensures { result ≡ first_of (hindered world.now.rehearsal) (members world.now.rehearsal.setting.members) }
{
    for i in 0..world.group().n() {
        if let Some(hindrance) = hindered(world, i + 1) {
            return Some(hindrance);
        }
    }
    None
}

// What is in the way of the member: something waits, or it could act, or it waits for one that crashed.
#[tactic(auto, unfolding(crate::specs::Hindrance::hindered))]
fn hindered(world: &World, member: Member) -> Option<Hindrance>
    requires { IsTrue (is_member world.now.rehearsal.setting.members member) }
    ensures { result ≡ hindered world.now.rehearsal member }
{
    if world.crashed(member) {
        return None;
    }
    if let Some(serial) = first_waiting(world, member) {
        return Some(Hindrance::Waits(member, serial));
    }
    acts(world, member).or(awaits(world, member))
}

// The first of its own steps that is allowed or refused for a limit, but a suspicion.
fn acts(world: &World, member: Member) -> Option<Hindrance>
    ensures { result ≡ acts world.now.rehearsal member }
{
    told(world, Step::Deliver(member))
        .or(told(world, Step::Follow(member)))
        .or(told(world, Step::Begin(member)))
        .or(choices(world, member))
        .or(told(world, Step::Adopt(member)))
        .or(told(world, Step::Conclude(member)))
        .or(told(world, Step::Enter(member)))
}

// The first member that it may choose.
#[tactic(auto, using(crate::proofs::Firsts::first_steps), unfolding(crate::specs::Hindrance::choices, ct_names::specs::Group::members))]
fn choices(world: &World, member: Member) -> Option<Hindrance>
    ensures { result ≡ choices world.now.rehearsal member world.now.rehearsal.setting.members }
{
    for i in 0..world.group().n() {
        if let Some(hindrance) = told(world, Step::Choose(member, i + 1)) {
            return Some(hindrance);
        }
    }
    None
}

// The step, where nothing refuses it or a limit does.
fn told(world: &World, step: Step) -> Option<Hindrance>
    ensures { result ≡ told world.now.rehearsal step }
{
    match world.enabled(&step) {
        Ok(()) => Some(Hindrance::May(step)),
        Err(Refusal::Full(limit)) => Some(Hindrance::Full(step, limit)),
        Err(_) => None,
    }
}

// The coordinator that the member waits for, where it crashed.
#[tactic(auto, unfolding(crate::specs::Hindrance::awaits))]
fn awaits(world: &World, member: Member) -> Option<Hindrance>
    requires { IsTrue (is_member world.now.rehearsal.setting.members member) }
    ensures { result ≡ awaits world.now.rehearsal member }
{
    let (round, phase) = world.round(member)?;
    let coordinator = world.group().coordinator(round);
    if phase == Phase::Wait && world.crashed(coordinator) {
        Some(Hindrance::Awaits(member, coordinator))
    } else {
        None
    }
}
