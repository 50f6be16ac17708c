ghost use Rattle.std.specs.Prelude.{◌<◌};

use super::world::does_all;
use ct_board::Board;
use ct_model::Step;
use ct_names::{Command, Group, Limit, MAX_BOUND, Refusal, Serial};
use ct_world::World;
use std::alloc::Global;

const SUBMIT: Step = Step::Submit(1, Command::Set(0, 7));

// A world of one member after these steps, and its board.
fn begun(alloc: Global, steps: &[Step]) -> Option<(World, Board)> {
    World::replay(alloc, Group::new(1)?, 1024, MAX_BOUND, steps).ok()
}

// Why the step is refused, and how many steps were done and envelopes sent.
fn refused(world: &mut World, board: &Board, step: &Step) -> (Option<Refusal>, usize, u32) {
    let refusal = world.apply(board, step).err();
    (refusal, world.record().len(), world.sent())
}

// A round that one member alone ends without a decision, after so many envelopes. The proposal is never received.
fn undecided_round(sent: Serial) -> [Step; 6]
    requires { sent < 1000000 }
{
    [
        Step::Enter(1),
        Step::Receive(1, sent + 1),
        Step::Choose(1, 1),
        Step::Suspect(1),
        Step::Receive(1, sent + 3),
        Step::Conclude(1),
    ]
}

// What is answered to one round more than there may be.
fn ten_thousand_rounds(alloc: Global) -> Option<(Option<Refusal>, usize, u32)> {
    let (mut world, board) = begun(alloc, &[SUBMIT, Step::Receive(1, 1), Step::Begin(1)])?;
    for round in 0..10_000u32 {
        if !does_all(&mut world, &board, &undecided_round(3 * round + 1)) {
            return None;
        }
    }
    Some(refused(&mut world, &board, &Step::Enter(1)))
}

#[test]
fn rounds_are_limited(rt: HostRuntime) {
    let full = Some(Refusal::Full(Limit::Rounds));
    assert_eq!(rt;
        ten_thousand_rounds(rt.alloc()),
        Some((full, 60_003, 30_001))
    );
}

// One member alone decides what it submits, after so many envelopes.
fn decided_alone(sent: Serial) -> [Step; 12]
    requires { sent < 1000000 }
{
    [
        SUBMIT,
        Step::Receive(1, sent + 1),
        Step::Begin(1),
        Step::Enter(1),
        Step::Receive(1, sent + 2),
        Step::Choose(1, 1),
        Step::Receive(1, sent + 3),
        Step::Adopt(1),
        Step::Receive(1, sent + 4),
        Step::Conclude(1),
        Step::Receive(1, sent + 5),
        Step::Deliver(1),
    ]
}

// What is answered to one instance more than there may be.
fn all_instances(alloc: Global) -> Option<(Option<Refusal>, usize, u32)> {
    let (mut world, board) = begun(alloc, &[])?;
    for instance in 0..1024u32 {
        if !does_all(&mut world, &board, &decided_alone(5 * instance)) {
            return None;
        }
    }
    if does_all(&mut world, &board, &[SUBMIT, Step::Receive(1, 5_121)]) {
        Some(refused(&mut world, &board, &Step::Begin(1)))
    } else {
        None
    }
}

#[test]
fn instances_are_limited(rt: HostRuntime) {
    let full = Some(Refusal::Full(Limit::Instances));
    assert_eq!(rt; all_instances(rt.alloc()), Some((full, 12_290, 5_121)));
}
