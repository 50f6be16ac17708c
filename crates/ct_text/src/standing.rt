//! Where a member stands: its instance, its round and its estimate; and the batch of an instance.

ghost use Rattle.std.specs.Prelude.{◌≡◌, OnOk};
ghost use Rattle.ct_text.specs.Adds.{Adds};
ghost use Rattle.ct_text.specs.Standing.{batch_text, coordinator_of, estimate_alone, estimate_of, instance_of, round_of};

use crate::shapes::{push_estimate, push_set, push_value};
use ct_names::{Instance, Member, Round};
use ct_world::World;
use std::alloc::AllocError;

/// The last instance that the member began, 0 before the first.
#[tactic(auto, unfolding(crate::specs::Standing::instance_of))]
pub fn instance_of(world: &World, member: Member) -> Instance
    ensures { result ≡ instance_of world.now.rehearsal member }
{
    world.instance(member).unwrap_or((0, false)).0
}

/// The round that the member is in, 0 where it is in none.
#[tactic(auto, unfolding(crate::specs::Standing::round_of))]
pub fn round_of(world: &World, member: Member) -> Round
    ensures { result ≡ round_of world.now.rehearsal member }
{
    match world.round(member) {
        Some((round, _)) => round,
        None => 0,
    }
}

/// The coordinator of the round that the member is in.
#[tactic(auto, unfolding(crate::specs::Standing::coordinator_of))]
pub fn coordinator_of(world: &World, member: Member) -> Member
    ensures { result ≡ coordinator_of world.now.rehearsal member }
{
    world.group().coordinator(round_of(world, member))
}

/// Appends a member's estimate and ts; nothing where it has none.
#[tactic(auto, unfolding(crate::specs::Standing::estimate_of))]
pub fn push_estimate_of(text: &mut String, world: &World, member: Member) -> Result<(), AllocError>
    ensures { OnOk result (Adds text.old text.new (estimate_of world.now.rehearsal member)) }
{
    push_estimate(text, world.estimate(member))
}

/// Appends the value of a member's estimate, without its ts; nothing where it has none.
#[tactic(auto, unfolding(crate::specs::Standing::estimate_alone))]
pub fn push_estimate_alone(
    text: &mut String,
    world: &World,
    member: Member,
) -> Result<(), AllocError>
    ensures { OnOk result (Adds text.old text.new (estimate_alone world.now.rehearsal member)) }
{
    push_value(text, world.estimate(member))
}

/// Appends the messages of the batch of an instance.
#[tactic(auto, unfolding(crate::specs::Standing::batch_text))]
pub fn push_batch(text: &mut String, world: &World, instance: Instance) -> Result<(), AllocError>
    ensures { OnOk result (Adds text.old text.new (batch_text world.now.rehearsal instance)) }
{
    push_set(text, world.batch(instance).unwrap_or(&[]))
}
