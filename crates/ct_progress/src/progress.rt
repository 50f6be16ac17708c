//! Whether all is done in a world, and whether nothing moves in it any more. No call takes memory.

ghost use Rattle.std.specs.Prelude.{◌≡◌, ◌==◌, IsTrue, filter, length};
ghost use Rattle.std.specs.List.{list_all};
ghost use Rattle.ct_names.specs.Group.{is_member, members};
ghost use Rattle.ct_model.specs.Cause.{cause};
ghost use Rattle.ct_model.specs.State.{delivered};
ghost use Rattle.ct_world.specs.World.{member_of};
ghost use Rattle.ct_progress.specs.Progress.{has_all, has_own, is_held, is_led, is_nothing, is_resting, is_settled, is_stuck, is_through};
ghost use Rattle.ct_progress.specs.Progress.{submits};

use ct_choices::first_waiting;
use ct_model::Step;
use ct_names::{Member, Message, Refusal};
use ct_world::World;

/// Whether the member crashed, or all is done: no member that is up has an instance open, all of them delivered as many messages,
/// which are the same ones in the same order, and among these is each that one of them received or submitted (Chandra and Toueg,
/// section 7, as far as a state shows it).
#[tactic(auto, unfolding(crate::specs::Progress::is_settled))]
pub fn is_settled(world: &World, member: Member) -> bool
    requires { IsTrue (is_member world.now.rehearsal.setting.members member) }
    ensures { result ≡ is_settled world.now.rehearsal member }
{
    world.crashed(member) || are_through(world, count(world, member))
}

/// Whether the member is up and nobody can move, and yet not all is done: nothing waits at any that is up, and of its own none of them
/// could do anything but suspect a coordinator that is up.
#[tactic(auto, unfolding(crate::specs::Progress::is_stuck))]
pub fn is_stuck(world: &World, member: Member) -> bool
    requires { IsTrue (is_member world.now.rehearsal.setting.members member) }
    ensures { result ≡ is_stuck world.now.rehearsal member }
{
    !world.crashed(member) && are_resting(world) && !is_settled(world, member)
}

// ---- all is done

// How many messages the member delivered.
fn count(world: &World, member: Member) -> usize
    requires { IsTrue (is_member world.now.rehearsal.setting.members member) }
    ensures { result ≡ length (delivered (member_of world.now.rehearsal member)) }
{
    world.delivered(member).unwrap_or(&[]).len()
}

fn are_through(world: &World, count: usize) -> bool
    ensures { result ≡ list_all (is_through world.now.rehearsal count) (members world.now.rehearsal.setting.members) }
{
    for i in 0..world.group().n() {
        if !is_through(world, count, i + 1) {
            return false;
        }
    }
    true
}

fn is_through(world: &World, all: usize, member: Member) -> bool
    requires { IsTrue (is_member world.now.rehearsal.setting.members member) }
    ensures { result ≡ is_through world.now.rehearsal all member }
{
    world.crashed(member)
        || has_nothing(world, member) && count(world, member) == all && has_own(world, member)
}

// Whether there is nothing that the member could begin with: no instance is open, and it delivered all that it received.
fn has_nothing(world: &World, member: Member) -> bool
    ensures { result ≡ is_nothing (cause world.now.rehearsal (Step.Begin member)) }
{
    match world.enabled(&Step::Begin(member)) {
        Err(Refusal::Nothing) => true,
        _ => false,
    }
}

// Whether the member delivered as many messages of its own as it submitted. It looks through the record.
#[tactic(auto, unfolding(crate::specs::Progress::has_own))]
fn has_own(world: &World, member: Member) -> bool
    requires { IsTrue (is_member world.now.rehearsal.setting.members member) }
    ensures { result ≡ has_own world.now.rehearsal member }
{
    let delivered = world.delivered(member).unwrap_or(&[]);
    own(delivered, member) == submissions(world.record(), member)
}

// How many of the messages are the member's.
fn own(messages: &[Message], member: Member) -> usize
    ensures { result ≡ length (filter (λ m. m.origin == member) messages.now) }
{
    messages
        .iter()
        .filter(|message| message.origin() == member)
        .count()
}

// How many of the steps are the member's submissions.
fn submissions(steps: &[Step], member: Member) -> usize
    ensures { result ≡ length (filter (submits member) steps.now) }
{
    steps.iter().filter(|step| submits(member, step)).count()
}

fn submits(member: Member, step: &Step) -> bool
    ensures { result ≡ submits member step.now }
{
    match step {
        Step::Submit(actor, _) => *actor == member,
        _ => false,
    }
}

// ---- nothing moves any more

fn are_resting(world: &World) -> bool
    ensures { result ≡ list_all (is_resting world.now.rehearsal) (members world.now.rehearsal.setting.members) }
{
    for i in 0..world.group().n() {
        if !is_resting(world, i + 1) {
            return false;
        }
    }
    true
}

fn is_resting(world: &World, member: Member) -> bool
    ensures { result ≡ is_resting world.now.rehearsal member }
{
    world.crashed(member)
        || first_waiting(world, member).is_none()
            && is_held(world, member, world.next_local(member))
}

// Whether the member could only suspect a coordinator that is up, where this step of its own comes next.
fn is_held(world: &World, member: Member, next: Option<Step>) -> bool
    ensures { result ≡ is_held world.now.rehearsal member next }
{
    match next {
        None => true,
        Some(Step::Suspect(_)) => is_led(world, member),
        Some(_) => false,
    }
}

// Whether the coordinator of the member's round has not crashed.
#[tactic(auto, unfolding(ct_choices::specs::Choices::round_of))]
fn is_led(world: &World, member: Member) -> bool
    ensures { result ≡ is_led world.now.rehearsal member }
{
    let round = match world.round(member) {
        Some((round, _)) => round,
        None => 0,
    };
    !world.crashed(world.group().coordinator(round))
}
