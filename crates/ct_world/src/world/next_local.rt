//! The step that a driver does next at a member.

ghost use Rattle.std.specs.Prelude.{◌≡◌, find, flat_map, is_none, option_and_then};
ghost use Rattle.std.specs.Option.{option_to_list};
ghost use Rattle.ct_model.specs.Cause.{cause};
ghost use Rattle.ct_rounds.specs.Best.{best};
ghost use Rattle.ct_rounds.specs.Part.{got};
ghost use Rattle.ct_instances.specs.Steps.{open_rounds};
ghost use Rattle.ct_world.specs.Driving.{next_local};

use crate::world::World;
use ct_instances::Instances;
use ct_model::Step;
use ct_names::Member;

impl World {
    /// What a driver does next at a member: the first step that `enabled` allows out of Deliver, Follow, Begin, Choose,
    /// Adopt, Conclude, Enter and Suspect, in this order. Choose names the least member among those whose estimate for the
    /// round was heard with the largest ts. None where none of them is allowed, also for a crashed member and for no
    /// member of the group. Takes no memory.
    pub fn next_local(&self, member: Member) -> Option<Step>
        ensures { result ≡ next_local self.now.rehearsal member }
    {
        let seat = self.kept.actor(member).ok()?;
        let choice = best_heard(&seat.instances).map(|from| Step::Choose(member, from));
        self.first_allowed(&[
            Some(Step::Deliver(member)),
            Some(Step::Follow(member)),
            Some(Step::Begin(member)),
            choice,
            Some(Step::Adopt(member)),
            Some(Step::Conclude(member)),
            Some(Step::Enter(member)),
            Some(Step::Suspect(member)),
        ])
    }

    // The first of the steps that is allowed.
    fn first_allowed(&self, steps: &[Option<Step>]) -> Option<Step>
        ensures { result ≡ find (λ step. is_none (cause self.now.rehearsal step)) (flat_map option_to_list steps.now) }
    {
        steps
            .iter()
            .copied()
            .flatten()
            .find(|step| self.enabled(step).is_ok())
    }
}

// The least of the members that were heard with the largest ts, in the round of the open instance.
fn best_heard(instances: &Instances) -> Option<Member>
    ensures { result ≡ option_and_then (λ c. best (got (open_rounds instances.now) c)) instances.now.part }
{
    let round = instances.current()?.round();
    instances.inbox()?.best(round)
}
