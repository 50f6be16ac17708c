//! What entries of scripts try.

ghost use Rattle.std.specs.Prelude.{◌≡◌};
ghost use Rattle.ct_rehearse.specs.Entries.{entry_step};

use crate::disturbance::Disturbance;
use ct_choices::first_waiting;
use ct_model::Step;
use ct_world::World;

/// What an entry of a script tries: its step, that of a postponement or a loss with the first serial of the member's waiting line;
/// None where there is none.
#[tactic(auto, unfolding(crate::specs::Entries::entry_step))]
pub fn entry_step(world: &World, entry: &Disturbance) -> Option<Step>
    ensures { result ≡ entry_step world.now.rehearsal entry.now }
{
    match *entry {
        Disturbance::Submit(member, command) => Some(Step::Submit(member, command)),
        Disturbance::Crash(member) => Some(Step::Crash(member)),
        Disturbance::Postpone(member) => {
            Some(Step::Postpone(member, first_waiting(world, member)?))
        }
        Disturbance::Lose(member) => Some(Step::Lose(member, first_waiting(world, member)?)),
        Disturbance::Repeat(member, serial) => Some(Step::Repeat(member, serial)),
    }
}
