ghost use Rattle.std.specs.Prelude.{◌≡◌, ◌≤◌};

use super::*;
use ct_detect::{Always, EveryNth};
use ct_names::{Member, Message, Refusal};
use ct_rehearse::{Turn, rehearse, turn};

fn has_registers_of_0(world: &World, member: Member) -> bool {
    match world.table(member) {
        Some(table) => (0..16).all(|at| table.get(at) == Some(0)),
        None => false,
    }
}

// Whether the member decided and delivered nothing.
fn is_undecided(world: &World, member: Member) -> bool {
    world.decided(member, 1).is_none()
        && world.delivered(member).is_some_and(|list| list.is_empty())
        && has_registers_of_0(world, member)
}

// Two members, one submission, 500 turns of each, in which all are suspected: whether both are undecided then.
fn suspecting<R: Threads + Wait + Sync>(rt: &R, alloc: Global) -> Option<bool> {
    let mut detectors: Vec<Box<dyn Detector>> = Vec::new(alloc);
    detectors.push(Box::new(alloc, Always::new()).ok()?).ok()?;
    detectors.push(Box::new(alloc, Always::new()).ok()?).ok()?;
    let plan = Plan {
        turns: 500,
        scripts: Vec::new(alloc),
    };
    let (world, board) = after(alloc, 2, &[Step::Submit(1, SEVEN)])?;
    if usize::from(world.group().n()) != detectors.len() {
        return None;
    }
    let done = rehearse(rt, alloc, world, board, &plan, detectors, &NoGate).ok()?;
    Some(is_undecided(&done.world, 1) && is_undecided(&done.world, 2))
}

#[test]
fn nobody_decides_where_all_suspect(rt: HostRuntime) {
    assert_eq!(rt; suspecting(&rt, rt.alloc()), Some(true));
}

// What came of a turn: the step, None for a rest, or the refusal.
type Came = Result<Option<Step>, Refusal>;

fn came_of(turn: &Turn) -> Came {
    match turn {
        Turn::Stepped(step, _) => Ok(Some(*step)),
        Turn::Resting => Ok(None),
        Turn::Refused(refusal) => Err(*refusal),
    }
}

// Makes a turn of the first member, where the share can still count; answers what came of it.
fn turned<L: Ledger>(
    desk: &mut Desk<L>,
    share: &mut Share<L>,
    board: &Board,
    detector: &mut dyn Detector,
) -> Option<Came> {
    if share.steps() == u64::MAX {
        return None;
    }
    let turn = turn(desk, share, board, 1, detector);
    Some(came_of(&turn))
}

// What comes of three turns with a detector that says yes at the third ask.
fn asked<L: Ledger>(
    desk: &mut Desk<L>,
    share: &mut Share<L>,
    board: &Board,
) -> Option<[Option<Came>; 3]> {
    let mut detector = EveryNth::new(3)?;
    Some([
        turned(desk, share, board, &mut detector),
        turned(desk, share, board, &mut detector),
        turned(desk, share, board, &mut detector),
    ])
}

// The first member entered round 1, and waits for a proposal with nothing in its line.
static WAITING: [Step; 12] = [
    Step::Submit(1, Command::Set(0, 1)),
    Step::Submit(2, Command::Set(0, 2)),
    Step::Receive(1, 1),
    Step::Receive(2, 5),
    Step::Begin(1),
    Step::Begin(2),
    Step::Enter(1),
    Step::Enter(2),
    Step::Receive(2, 7),
    Step::Receive(2, 8),
    Step::Receive(1, 4),
    Step::Receive(1, 9),
];

// What comes of three of its turns then.
fn asking<L: Ledger>(alloc: Global, blank: Blank) -> Option<[Option<Came>; 3]>
    requires name { blank.name ≡ L.name }
    requires parts { blank.parts ≡ L.parts }
    requires whole { L.parts ≡ 1000 }
{
    let (world, board) = after(alloc, 3, &WAITING)?;
    let (mut desk, mut share) = Desk::<L>::new(blank, world);
    let came = asked(&mut desk, &mut share, &board);
    drop(desk);
    drop(board);
    came
}

#[test]
fn a_turn_asks_its_detector_once(rt: HostRuntime) {
    let suspicion = Some(Ok(Some(Step::Suspect(1))));
    assert_eq!(rt;
        asking::<Brand>(rt.alloc(), Blank::new(1000)),
        Some([Some(Ok(None)), Some(Ok(None)), suspicion])
    );
}

// Whether the settled world and another copy of it have 14 steps, and its member delivered the message alone.
fn is_shown<L: Ledger, R: Wait>(
    rt: &R,
    alloc: Global,
    hall: &Hall<L>,
    share: &mut Share<L>,
    message: Message,
) -> Option<bool>
    requires { share.old.parts ≡ L.parts }
{
    let settled = hall.settled(rt, alloc, share).ok()?;
    let snapshot = hall.snapshot(rt, alloc).ok()?;
    Some(
        settled.record().len() == 14
            && snapshot.record() == settled.record()
            && settled
                .delivered(1)
                .is_some_and(|list| list == [message].as_slice()),
    )
}

// Whether a new watcher that meets the hall's world is told of one batch, and reads the message.
fn is_followed<L: Ledger, R: Wait>(
    rt: &R,
    alloc: Global,
    hall: &Hall<L>,
    message: Message,
) -> Option<bool> {
    let board = hall.board();
    let mut watcher = Watcher::new(alloc, board).ok()?;
    hall.meet(rt, &mut watcher).ok()?;
    let told = watcher.told();
    let batch = watcher.next(board)?;
    Some(told == 1 && batch.messages() == [message].as_slice())
}

// 100 turns of the hall's members: what was made, and whether the message is shown and followed.
fn in_hall<L: Ledger + Send + Sync, R: Threads + Wait + Sync>(
    rt: &R,
    alloc: Global,
    hall: &Hall<L>,
    share: &mut Share<L>,
    message: Message,
) -> Option<(Made, bool, bool)>
    requires parts { share.old.parts ≡ 1000 }
    requires steps { share.old.steps ≤ 1000000 }
    requires whole { L.parts ≡ 1000 }
{
    let plan = Plan {
        turns: 100,
        scripts: Vec::new(alloc),
    };
    let made = ran_in(rt, alloc, hall, share, &plan, &NoGate);
    drop(plan);
    let made = made?;
    let is_shown = is_shown(rt, alloc, hall, share, message)?;
    let is_followed = is_followed(rt, alloc, hall, message)?;
    Some((made, is_shown, is_followed))
}

// The same of one member that submitted the message.
fn one_member<L: Ledger + Send + Sync, R: Threads + Wait + Sync>(
    rt: &R,
    alloc: Global,
    blank: Blank,
    message: Message,
) -> Option<(Made, bool, bool)>
    requires name { blank.name ≡ L.name }
    requires parts { blank.parts ≡ L.parts }
    requires whole { L.parts ≡ 1000 }
{
    let (world, board) = after(alloc, 1, &[Step::Submit(1, SEVEN)])?;
    let (hall, mut share) = Hall::<L>::new(blank, world, board);
    let came = in_hall(rt, alloc, &hall, &mut share, message);
    drop(hall);
    came
}

#[test]
fn one_member_delivers(rt: HostRuntime) -> Result<(), Fail> {
    let message = Message::new(1, 1, SEVEN).ok_or("good")?;
    let made = Made {
        steps: 13,
        resting: 87,
        refused: 0,
    };
    let came = one_member::<Brand, _>(&rt, rt.alloc(), Blank::new(1000), message);
    assert_eq!(rt; came, Some((made, true, true)));
    Ok(())
}
