//! Which lines of logs sent what others received.

use crate::setup::setup_of;
use ct_grammar::Carried;
use ct_merge::FullName;
use ct_model::Step;
use ct_names::Member;
use ct_play::carried_of;
use ct_world::{Replay, Replayed, World};
use std::alloc::{AllocError, Global};

// The place in its sender's log of the line that sent the envelope of this name to the member; None where none did in the run.
pub(crate) fn sent_at(
    alloc: Global,
    world: &World,
    to: Member,
    name: FullName,
) -> Result<Option<usize>, AllocError> {
    let Ok(mut replay) = Replay::new(alloc, setup_of(world), world.record()) else {
        return Err(AllocError);
    };
    let place = place_in(&mut replay, to, name);
    drop(replay);
    place
}

// The same among the steps that are left.
fn place_in(
    replay: &mut Replay<'_>,
    to: Member,
    name: FullName,
) -> Result<Option<usize>, AllocError> {
    let mut place: usize = 0;
    while !replay.is_over() {
        let Ok(done) = replay.step() else {
            return Err(AllocError);
        };
        if is_own(name.from, done.step) {
            if sends(replay.world(), done, to, name.carried) {
                return Ok(Some(place));
            }
            place = place.saturating_add(1);
        }
    }
    Ok(None)
}

// Whether the step is the member's, and no repetition by the network: a line of its log.
fn is_own(member: Member, step: Step) -> bool {
    match step {
        Step::Repeat(..) => false,
        _ => step.member() == member,
    }
}

// Whether the step, after which the world is this, sent this to the member.
fn sends(world: &World, done: Replayed, to: Member, carried: Carried) -> bool {
    for i in 0..done.sent {
        let serial = done.before.saturating_add(i).saturating_add(1);
        if let Some(letter) = world.letter(serial) {
            if letter.to == to && carried_of(&letter.wire) == carried {
                return true;
            }
        }
    }
    false
}
