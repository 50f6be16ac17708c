//! How near a world is to what is looked for.

ghost use Rattle.std.specs.Prelude.{◌≡◌};
ghost use Rattle.ct_walk.specs.Nearness.{came, largest_decided, largest_round, last_of};

use crate::sight::{Sight, round_of};
use ct_names::{Instance, Member, Round};
use ct_world::World;

// The largest round that a member is in, 0 where none is in one.
#[tactic(auto, unfolding(crate::specs::Nearness::largest_round))]
pub(crate) fn largest_round(world: &World) -> Round
    ensures { result ≡ largest_round world.now.rehearsal }
{
    let mut largest: Round = 0;
    for i in 0..world.group().n() {
        largest = largest.max(round_of(world, i + 1));
    }
    largest
}

// The largest instance whose decision a member got, 0 where none got one.
#[tactic(auto, unfolding(crate::specs::Nearness::largest_decided))]
fn largest_decided(world: &World) -> Instance
    ensures { result ≡ largest_decided world.now.rehearsal }
{
    let mut largest: Instance = 0;
    for i in 0..world.group().n() {
        largest = largest.max(last_of(world, i + 1));
    }
    largest
}

// The largest instance whose decision the member got, 0 where it got none.
fn last_of(world: &World, member: Member) -> Instance
    ensures { result ≡ last_of world.now.rehearsal member }
{
    world.last_decided(member).unwrap_or(0)
}

// What a walk came to, that ended in this world, and whose largest round this is.
pub(crate) fn came(sight: Option<Sight>, rounds: Round, world: &World) -> u32
    ensures { result ≡ came sight rounds world.now.rehearsal }
{
    match sight {
        None => 0,
        Some(Sight::Decided(_)) => largest_decided(world),
        Some(Sight::Round(_)) => rounds,
    }
}
