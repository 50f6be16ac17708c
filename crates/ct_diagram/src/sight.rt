//! How a step is drawn.

ghost use Rattle.std.specs.Prelude.{◌≡◌, ◌&&◌, ◌||◌, not, option_map};
ghost use Rattle.ct_diagram.specs.Sight.{glance_of, has_got, is_passed, is_later, is_over, is_over_at, received_count, is_old};
ghost use Rattle.ct_diagram.specs.Sight.{is_quiet, is_data_at, is_consensus, is_asked, sight_of, is_wide};

use crate::window::{Window, is_data};
use ct_model::{Phase, Step};
use ct_names::{Instance, Member, Round, Serial};
use ct_world::{Letter, Wire, World};

// How a step is drawn.
#[derive(Clone, Copy, Drop)]
pub(crate) enum Sight {
    // In a column of its own.
    Wide,
    // As a small mark between two columns.
    Small,
    // Not at all.
    Hidden,
}

impl Sight {
    // Whether the step has a column of its own.
    pub(crate) fn is_wide(self) -> bool
        ensures { result ≡ is_wide self }
    {
        match self {
            Sight::Wide => true,
            _ => false,
        }
    }
}

// What is seen of a member before its receipt; of other steps nothing.
#[derive(Clone, Copy, Drop)]
pub(crate) struct Glance {
    // How many messages it had received.
    pub received: usize,
    // Whether what it receives is of an instance or of a round that is over for it.
    pub is_over: bool,
}

// What is seen before the step, in the world before it.
pub(crate) fn glance_of(world: &World, step: Step) -> Glance
    ensures { result ≡ glance_of world.now.rehearsal step }
{
    match step {
        Step::Receive(member, serial) => Glance {
            received: received_count(world, member),
            is_over: is_over_at(world, member, world.letter(serial)),
        },
        _ => Glance {
            received: 0,
            is_over: false,
        },
    }
}

// How many messages a member has received; 0 for no member of the group.
fn received_count(world: &World, member: Member) -> usize
    ensures { result ≡ received_count world.now.rehearsal member }
{
    match world.received(member) {
        None => 0,
        Some(list) => list.len(),
    }
}

// Whether what the member would receive by it is of an instance or of a round that is over for it.
fn is_over_at(world: &World, member: Member, letter: Option<Letter>) -> bool
    ensures { result ≡ is_over_at world.now.rehearsal member letter }
{
    match letter {
        None => false,
        Some(letter) => is_over(world, member, &letter.wire),
    }
}

fn is_over(world: &World, member: Member, wire: &Wire) -> bool
    ensures { result ≡ is_over world.now.rehearsal member wire.now }
{
    match *wire {
        Wire::Data(_) => false,
        Wire::Dec { instance, .. } => has_got(world, member, instance),
        Wire::Est {
            instance,
            round,
            ..
        }
        | Wire::Prop {
            instance,
            round,
            ..
        }
        | Wire::Ack {
            instance,
            round,
            ..
        }
        | Wire::Nack {
            instance,
            round,
            ..
        } => is_passed(world, member, instance, round),
    }
}

// Whether the member got the decision of the instance.
fn has_got(world: &World, member: Member, instance: Instance) -> bool
    ensures { result ≡ has_got world.now.rehearsal member instance }
{
    world.decided(member, instance).is_some()
}

// Whether the member got the decision of the instance, or is in a later round of it.
fn is_passed(world: &World, member: Member, instance: Instance, round: Round) -> bool
    ensures { result ≡ is_passed world.now.rehearsal member instance round }
{
    has_got(world, member, instance)
        || is_later(world.instance(member), world.round(member), instance, round)
}

fn is_later(
    last: Option<(Instance, bool)>,
    at: Option<(Round, Phase)>,
    instance: Instance,
    round: Round,
) -> bool
    ensures { result ≡ is_later last at instance round }
{
    match (last, at) {
        (Some((last, _)), Some((current, _))) => last == instance && round < current,
        _ => false,
    }
}

// How the world's last step is drawn, by whether it is a receipt that changes nothing.
pub(crate) fn sight_of(window: &Window, world: &World, is_quiet: bool, step: Step) -> Sight
    ensures { result ≡ sight_of window.now world.now.rehearsal is_quiet step }
{
    if !is_asked(window, world, step) {
        Sight::Hidden
    } else if is_quiet {
        Sight::Small
    } else {
        Sight::Wide
    }
}

// Whether it is one of those that are asked for.
fn is_asked(window: &Window, world: &World, step: Step) -> bool
    ensures { result ≡ is_asked window.now world.now.rehearsal step }
{
    window.names(step.member()) && (!window.consensus || is_consensus(world, step))
}

// Whether it is no submission and is not about a message alone.
fn is_consensus(world: &World, step: Step) -> bool
    ensures { result ≡ is_consensus world.now.rehearsal step }
{
    match step {
        Step::Submit(_, _) => false,
        Step::Receive(_, serial)
        | Step::Postpone(_, serial)
        | Step::Lose(_, serial)
        | Step::Repeat(_, serial) => !is_data_at(world, serial),
        _ => true,
    }
}

fn is_data_at(world: &World, serial: Serial) -> bool
    ensures { result ≡ is_data_at world.now.rehearsal serial }
{
    match world.letter(serial) {
        None => false,
        Some(letter) => is_data(&letter.wire),
    }
}

// Whether the world's last step, before which so many envelopes had been sent, is a receipt that changes nothing for its member, and sends
// nothing.
pub(crate) fn is_quiet(world: &World, glance: Glance, before: u32, step: Step) -> bool
    ensures { result ≡ is_quiet world.now.rehearsal glance before step }
{
    match step {
        Step::Receive(member, serial) => {
            world.sent() == before && is_old(world, glance, member, serial)
        }
        _ => false,
    }
}

// Whether the member had received the message, or what it received is over for it.
fn is_old(world: &World, glance: Glance, member: Member, serial: Serial) -> bool
    ensures { result ≡ is_old world.now.rehearsal glance member serial }
{
    if is_data_at(world, serial) {
        received_count(world, member) == glance.received
    } else {
        glance.is_over
    }
}
