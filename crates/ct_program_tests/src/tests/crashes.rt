ghost use Rattle.std.specs.Prelude.{◌≡◌};

use super::*;
use ct_model::Step;
use ct_rehearse::{Desk, Played, play};
use std::marker::Brand;
use std::sync::ledger::{Blank, Ledger};

// Three members: the first submits a message, the third crashes, and the other two decide and deliver the message in the
// first round, which member 2 coordinates. It proposes in step 11 and decides in step 18.
const STEPS: [Step; 22] = [
    Step::Submit(1, Command::Set(0, 7)),
    Step::Receive(1, 1),
    Step::Receive(2, 2),
    Step::Crash(3),
    Step::Begin(1),
    Step::Begin(2),
    Step::Enter(1),
    Step::Enter(2),
    Step::Receive(2, 7),
    Step::Receive(2, 8),
    Step::Choose(2, 1),
    Step::Receive(1, 9),
    Step::Adopt(1),
    Step::Receive(2, 10),
    Step::Adopt(2),
    Step::Receive(2, 12),
    Step::Receive(2, 13),
    Step::Conclude(2),
    Step::Receive(2, 15),
    Step::Deliver(2),
    Step::Receive(1, 14),
    Step::Deliver(1),
];

// The steps with a crash of the member after so many of them.
fn with_crash(alloc: Global, after: usize, member: Member) -> Result<Vec<Step>, AllocError> {
    let mut steps = Vec::from_slice(alloc, &STEPS)?;
    let place = after.min(steps.len());
    steps.insert(place, Step::Crash(member))?;
    Ok(steps)
}

// What the steps come to, in a world of three members and four cells, and that world.
fn played_in<L: Ledger>(alloc: Global, blank: Blank, steps: &[Step]) -> Option<(Played, World)>
    requires name { blank.name ≡ L.name }
    requires parts { blank.parts ≡ L.parts }
    requires whole { L.parts ≡ 1000 }
{
    let (world, board) = World::replay(alloc, Group::new(3)?, 4, MAX_BOUND, &[]).ok()?;
    let (mut desk, mut share) = Desk::<L>::new(blank, world);
    if share.steps() > 1000 || steps.len() > 1000 {
        return None;
    }
    let played = play(&mut desk, &mut share, &board, steps);
    Some((played, desk.into_world()))
}

fn crashed(alloc: Global, after: usize, member: Member) -> Option<(Played, World)> {
    let steps = with_crash(alloc, after, member).ok()?;
    played_in::<Brand>(alloc, Blank::new(1000), &steps)
}

// Whether of what the two members delivered one begins the other.
fn are_in_one_order(world: &World, one: Member, other: Member) -> bool {
    match (world.delivered(one), world.delivered(other)) {
        (Some(one), Some(other)) => one.starts_with(other) || other.starts_with(one),
        _ => false,
    }
}

// Whether the world that a crash after so many steps leads to is replayed, and its members deliver in one order.
fn is_safe(alloc: Global, after: usize, member: Member) -> bool {
    crashed(alloc, after, member).is_some_and(|(_, world)| {
        is_replayed(alloc, &world)
            && are_in_one_order(&world, 1, 2)
            && are_in_one_order(&world, 1, 3)
            && are_in_one_order(&world, 2, 3)
    })
}

// After how many steps a crash of one of the members leads to another world.
fn ends_otherwise(alloc: Global) -> Option<usize> {
    (0..=STEPS.len()).find(|after| (1..=3u8).any(|member| !is_safe(alloc, *after, member)))
}

#[test]
fn a_crash_anywhere_leaves_one_order(rt: HostRuntime) {
    assert_eq!(rt; ends_otherwise(rt.alloc()), None);
}

// What came of a crash of the coordinator, how many envelopes were sent, and how many messages each member delivered.
fn came(alloc: Global, after: usize) -> Option<(Played, u32, [usize; 3])> {
    let (played, world) = crashed(alloc, after, 2)?;
    let delivered = [1, 2, 3].map(|member| world.delivered(member).map_or(9, |list| list.len()));
    Some((played, world.sent(), delivered))
}

fn played(applied: u64, refused: u64) -> Played {
    Played {
        applied,
        refused,
        short: 0,
    }
}

#[test]
fn a_decision_that_was_sent_is_delivered_and_a_proposal_is_not(rt: HostRuntime) {
    assert!(rt; came(rt.alloc(), 11) == Some((played(14, 9), 12, [0; 3])));
    assert!(rt; came(rt.alloc(), 18) == Some((played(21, 2), 19, [1, 0, 0])));
}
