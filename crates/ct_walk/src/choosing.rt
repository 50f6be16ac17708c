//! What turns of members ask and try: what comes next at the member is looked for once.

ghost use Rattle.std.specs.Prelude.{◌≡◌};
ghost use Rattle.ct_choices.specs.Choices.{ask_of, asked_for, instance_of, receives};
ghost use Rattle.ct_walk.specs.Adversary.{received, tries};
ghost use Rattle.ct_world.specs.Driving.{next_local};

use crate::adversary::received;
use crate::sight::round_of;
use ct_detect::Ask;
use ct_model::Step;
use ct_names::{Instance, Member};
use ct_play::Stage;
use ct_world::World;

// What a turn of the member tries that suspects or not, and receives what is looked for from this place of its line on; this comes
// next at it.
#[tactic(auto, unfolding(crate::specs::Adversary::tries))]
pub(crate) fn tried(
    stage: &Stage,
    member: Member,
    next: Option<Step>,
    suspects: bool,
    cut: u32,
    place: usize,
) -> Option<Step>
    requires { next ≡ next_local stage.now.rehearsal member }
    ensures { result ≡ tries stage.now.rehearsal member (received cut stage.now.rehearsal member place) suspects }
{
    if stage.world().crashed(member) {
        return None;
    }
    match next {
        Some(Step::Suspect(_)) if !suspects => receipt(stage, member, cut, place),
        Some(step) => Some(step),
        None => receipt(stage, member, cut, place),
    }
}

// What the member asks its detector where this step comes next.
pub(crate) fn asked_for(world: &World, member: Member, next: Option<Step>) -> Option<Ask>
    ensures { result ≡ asked_for next (ask_of world.now.rehearsal member) }
{
    match next {
        Some(Step::Suspect(_)) => Some(ask(world, member)),
        _ => None,
    }
}

#[tactic(auto, unfolding(ct_choices::specs::Choices::ask_of))]
fn ask(world: &World, member: Member) -> Ask
    ensures { result ≡ ask_of world.now.rehearsal member }
{
    let round = round_of(world, member);
    Ask {
        member,
        coordinator: world.group().coordinator(round),
        instance: instance_of(world, member),
        round,
    }
}

#[tactic(auto, unfolding(ct_choices::specs::Choices::instance_of))]
fn instance_of(world: &World, member: Member) -> Instance
    ensures { result ≡ instance_of world.now.rehearsal member }
{
    match world.instance(member) {
        Some((instance, _)) => instance,
        None => 0,
    }
}

fn receipt(stage: &Stage, member: Member, cut: u32, place: usize) -> Option<Step>
    ensures { result ≡ receives member (received cut stage.now.rehearsal member place) }
{
    let serial = received(stage, cut, member, place)?;
    Some(Step::Receive(member, serial))
}
