//! What turns of members try.

ghost use Rattle.std.specs.Prelude.{◌≡◌, Some};
ghost use Rattle.ct_world.specs.Driving.{next_local};
ghost use Rattle.ct_choices.specs.Choices.{HasAsked, ask_of, chosen, first_waiting, instance_of, question, receives, round_of};
ghost use Rattle.ct_choices.specs.Choices.{said, tried};

use ct_detect::{Ask, Detector};
use ct_model::Step;
use ct_names::{Instance, Member, Round, Serial};
use ct_world::World;

/// What a turn of the member tries. The detector is asked where a suspicion comes next.
#[tactic(auto, unfolding(crate::specs::Choices::tried))]
pub fn tried(world: &World, member: Member, detector: &mut dyn Detector) -> Option<Step>
    ensures tried { result ≡ tried world.now.rehearsal member (last detector.new) }
    ensures asked { HasAsked (next_local world.now.rehearsal member) (ask_of world.now.rehearsal member) (last detector.old)
        (last detector.new) }
{
    let next = world.next_local(member);
    let suspects = answer(world, member, next, detector);
    let step = chosen(world, member, next, suspects);
    if world.crashed(member) { None } else { step }
}

// The answer of the detector, which is asked where a suspicion comes next; what is tried goes by it.
fn answer(world: &World, member: Member, next: Option<Step>, detector: &mut dyn Detector) -> bool
    ensures asked { HasAsked next (ask_of world.now.rehearsal member) (last detector.old) (last detector.new) }
    ensures chosen { chosen member (first_waiting world.now.rehearsal member) result next
        ≡ chosen member (first_waiting world.now.rehearsal member) (said (last detector.new)) next }
{
    match next {
        Some(Step::Suspect(_)) => detector.suspects(ask(world, member)),
        _ => false,
    }
}

/// What a turn of the member asks its detector: of the coordinator of its round, where a suspicion comes next; None where
/// it asks nothing.
#[tactic(auto, unfolding(crate::specs::Choices::question))]
pub fn question(world: &World, member: Member) -> Option<Ask>
    ensures { result ≡ question world.now.rehearsal member }
{
    match world.next_local(member) {
        Some(Step::Suspect(_)) => Some(ask(world, member)),
        _ => None,
    }
}

/// What a turn of the member tries, where its detector gives this answer to its `question`; where it asks nothing, the answer
/// changes nothing. None where the member rests.
#[tactic(auto, unfolding(crate::specs::Choices::tried))]
pub fn choice(world: &World, member: Member, suspects: bool) -> Option<Step>
    ensures { result ≡ tried world.now.rehearsal member (Some (ask_of world.now.rehearsal member, suspects)) }
{
    let tried = chosen(world, member, world.next_local(member), suspects);
    if world.crashed(member) { None } else { tried }
}

// What is tried where this step comes next, and this is the detector's answer.
fn chosen(world: &World, member: Member, next: Option<Step>, suspects: bool) -> Option<Step>
    ensures { result ≡ chosen member (first_waiting world.now.rehearsal member) suspects next }
{
    match next {
        Some(Step::Suspect(_)) if !suspects => receipt(world, member),
        Some(step) => Some(step),
        None => receipt(world, member),
    }
}

#[tactic(auto, unfolding(crate::specs::Choices::ask_of))]
fn ask(world: &World, member: Member) -> Ask
    ensures { result ≡ ask_of world.now.rehearsal member }
{
    let round = round_of(world, member);
    Ask {
        member,
        coordinator: world.group().coordinator(round),
        instance: instance_of(world, member),
        round,
    }
}

#[tactic(auto, unfolding(crate::specs::Choices::instance_of))]
fn instance_of(world: &World, member: Member) -> Instance
    ensures { result ≡ instance_of world.now.rehearsal member }
{
    match world.instance(member) {
        Some((instance, _)) => instance,
        None => 0,
    }
}

#[tactic(auto, unfolding(crate::specs::Choices::round_of))]
fn round_of(world: &World, member: Member) -> Round
    ensures { result ≡ round_of world.now.rehearsal member }
{
    match world.round(member) {
        Some((round, _)) => round,
        None => 0,
    }
}

/// The first serial that waits at the member; None where none does.
#[tactic(auto, unfolding(crate::specs::Choices::first_waiting))]
pub fn first_waiting(world: &World, member: Member) -> Option<Serial>
    ensures { result ≡ first_waiting world.now.rehearsal member }
{
    world.waiting(member)?.first().copied()
}

fn receipt(world: &World, member: Member) -> Option<Step>
    ensures { result ≡ receives member (first_waiting world.now.rehearsal member) }
{
    let serial = first_waiting(world, member)?;
    Some(Step::Receive(member, serial))
}
