//! What a member may still send.

ghost use Rattle.std.specs.Prelude.{◌≡◌};
ghost use Rattle.ct_merge.specs.Sending.{choosing, concluding, has_before, has_decided, is_later, is_of_group, is_passed, is_receipt};
ghost use Rattle.ct_merge.specs.Sending.{is_submission, may_come, may_send, passes, phase_in, received, replying, submitted};

use crate::full_name::FullName;
use ct_grammar::Carried;
use ct_model::{Phase, Step};
use ct_names::{Group, Instance, Member, Round};
use ct_world::{Letter, Wire, World};

// ---- what it did

// Whether the member received this message, proposal or decision.
#[tactic(auto, unfolding(crate::specs::Sending::received))]
fn received(world: &World, member: Member, carried: Carried) -> bool
    ensures { result ≡ received world.now.rehearsal member carried }
{
    world
        .record()
        .iter()
        .any(|step| is_receipt(world, member, carried, *step))
}

// Whether the step is the member's receipt of this message, proposal or decision.
fn is_receipt(world: &World, member: Member, carried: Carried, step: Step) -> bool
    ensures { result ≡ is_receipt world.now.rehearsal member carried step }
{
    match step {
        Step::Receive(who, serial) => who == member && is_passed(carried, world.letter(serial)),
        _ => false,
    }
}

fn is_passed(carried: Carried, letter: Option<Letter>) -> bool
    ensures { result ≡ is_passed carried letter }
{
    match letter {
        None => false,
        Some(letter) => passes(&letter.wire, carried),
    }
}

// Whether the wire carries this message, proposal or decision.
fn passes(wire: &Wire, carried: Carried) -> bool
    ensures { result ≡ passes wire.now carried }
{
    match (wire, carried) {
        (Wire::Data(message), Carried::Data(origin, number)) => {
            message.origin() == origin && message.number() == number
        }
        (
            Wire::Prop {
                instance,
                round,
                ..
            },
            Carried::Prop(k, r),
        ) => *instance == k && *round == r,
        (
            Wire::Dec {
                instance,
                round,
                ..
            },
            Carried::Dec(k, r),
        ) => *instance == k && *round == r,
        _ => false,
    }
}

/// How many messages the member submitted.
#[tactic(auto, unfolding(crate::specs::Sending::submitted))]
pub fn submitted(world: &World, member: Member) -> usize
    ensures { result ≡ submitted world.now.rehearsal member }
{
    world
        .record()
        .iter()
        .filter(|step| is_submission(member, **step))
        .count()
}

fn is_submission(member: Member, step: Step) -> bool
    ensures { result ≡ is_submission member step }
{
    match step {
        Step::Submit(who, _) => who == member,
        _ => false,
    }
}

// ---- what is still before it

// Whether the member has a decision for the instance.
fn has_decided(world: &World, member: Member, instance: Instance) -> bool
    ensures { result ≡ has_decided world.now.rehearsal member instance }
{
    world.decided(member, instance).is_some()
}

// Whether the round of the instance is one that the member has yet to enter; it enters none once it has the instance's decision.
#[tactic(auto, unfolding(crate::specs::Sending::has_before))]
fn has_before(world: &World, member: Member, instance: Instance, round: Round) -> bool
    ensures { result ≡ has_before world.now.rehearsal member instance round }
{
    if has_decided(world, member, instance) {
        return false;
    }
    match world.instance(member) {
        None => false,
        Some((last, _)) => {
            last < instance || instance == last && is_later(world.round(member), round)
        }
    }
}

// Whether the round is behind where a member is.
fn is_later(here: Option<(Round, Phase)>, round: Round) -> bool
    ensures { result ≡ is_later here round }
{
    match here {
        None => false,
        Some((at, _)) => at < round,
    }
}

// The phase in which the member is in this round of the instance; None where it isn't in that.
#[tactic(auto, unfolding(crate::specs::Sending::phase_in))]
fn phase_in(world: &World, member: Member, instance: Instance, round: Round) -> Option<Phase>
    ensures { result ≡ phase_in world.now.rehearsal member instance round }
{
    let (last, _) = world.instance(member)?;
    let (here, phase) = world.round(member)?;
    if instance == last && here == round {
        Some(phase)
    } else {
        None
    }
}

// Whether the member may still propose in this round.
fn may_choose(world: &World, member: Member, instance: Instance, round: Round) -> bool
    ensures { result ≡ choosing (phase_in world.now.rehearsal member instance round)
        (has_before world.now.rehearsal member instance round) }
{
    match phase_in(world, member, instance, round) {
        Some(Phase::Gather) => true,
        Some(Phase::Rest | Phase::Wait | Phase::Tally) => false,
        None => has_before(world, member, instance, round),
    }
}

// Whether it may still reply in it.
fn may_reply(world: &World, member: Member, instance: Instance, round: Round) -> bool
    ensures { result ≡ replying (phase_in world.now.rehearsal member instance round)
        (has_before world.now.rehearsal member instance round) }
{
    match phase_in(world, member, instance, round) {
        Some(Phase::Gather | Phase::Wait) => true,
        Some(Phase::Rest | Phase::Tally) => false,
        None => has_before(world, member, instance, round),
    }
}

// Whether it may still decide in it.
fn may_conclude(world: &World, member: Member, instance: Instance, round: Round) -> bool
    ensures { result ≡ concluding (phase_in world.now.rehearsal member instance round)
        (has_before world.now.rehearsal member instance round) }
{
    match phase_in(world, member, instance, round) {
        Some(Phase::Rest) => false,
        Some(Phase::Gather | Phase::Wait | Phase::Tally) => true,
        None => has_before(world, member, instance, round),
    }
}

// What the member may still send to the other, while it is up: a message that it submits or gets for the first time; what it sends in
// a round, and no nack once it has the proposal; a decision that it makes or gets for the first time.
#[tactic(auto, unfolding(crate::specs::Sending::may_send))]
fn may_send(world: &World, from: Member, to: Member, carried: Carried) -> bool
    ensures { result ≡ may_send world.now.rehearsal from to carried }
{
    let group = world.group();
    match carried {
        Carried::Data(origin, number) => {
            if origin == from {
                submitted(world, from) < number as usize
            } else {
                !received(world, from, Carried::Data(origin, number))
            }
        }
        Carried::Est(k, r) => group.coordinator(r) == to && has_before(world, from, k, r),
        Carried::Prop(k, r) => group.coordinator(r) == from && may_choose(world, from, k, r),
        Carried::Ack(k, r) => group.coordinator(r) == to && may_reply(world, from, k, r),
        Carried::Nack(k, r) => {
            group.coordinator(r) == to
                && may_reply(world, from, k, r)
                && !received(world, from, Carried::Prop(k, r))
        }
        Carried::Dec(k, r) => {
            if group.coordinator(r) == from {
                may_conclude(world, from, k, r)
            } else {
                !received(world, from, Carried::Dec(k, r))
            }
        }
    }
}

// ---- what may come

// Whether the group has such: messages of its members, counted from 1 on, and what is sent in rounds of instances.
fn is_of_group(group: Group, carried: Carried) -> bool
    ensures { result ≡ is_of_group group carried }
{
    match carried {
        Carried::Data(origin, number) => group.has(origin) && number >= 1,
        Carried::Est(k, r)
        | Carried::Prop(k, r)
        | Carried::Ack(k, r)
        | Carried::Nack(k, r)
        | Carried::Dec(k, r) => k >= 1 && r >= 1,
    }
}

/// Whether the envelope of this name may still be sent to the member.
#[tactic(auto, unfolding(crate::specs::Sending::may_come))]
pub fn may_come(world: &World, to: Member, name: FullName) -> bool
    ensures { result ≡ may_come world.now.rehearsal to name }
{
    world.group().has(name.from)
        && is_of_group(world.group(), name.carried)
        && !world.crashed(name.from)
        && may_send(world, name.from, to, name.carried)
}
