use ct_abcast::Batch;
use ct_board::{Board, Watcher};
use ct_model::Step;
use ct_names::{Command, Group, Instance, Limit, MAX_BOUND, Refusal};
use ct_world::World;
use std::alloc::{AllocError, Global};
use std::test::Fail;

// One member delivers its second message before its first, in two instances.
pub(super) static TWO_INSTANCES: [Step; 24] = [
    Step::Submit(1, Command::Copy(0, 1)),
    Step::Submit(1, Command::Set(0, 5)),
    Step::Receive(1, 2),
    Step::Begin(1),
    Step::Enter(1),
    Step::Receive(1, 3),
    Step::Choose(1, 1),
    Step::Receive(1, 4),
    Step::Adopt(1),
    Step::Receive(1, 5),
    Step::Conclude(1),
    Step::Receive(1, 6),
    Step::Deliver(1),
    Step::Receive(1, 1),
    Step::Begin(1),
    Step::Enter(1),
    Step::Receive(1, 7),
    Step::Choose(1, 1),
    Step::Receive(1, 8),
    Step::Adopt(1),
    Step::Receive(1, 9),
    Step::Conclude(1),
    Step::Receive(1, 10),
    Step::Deliver(1),
];

// The world after the first of these steps, so many, and its board.
fn after(alloc: Global, cells: u16, count: usize) -> Result<(World, Board), Fail> {
    let group = Group::new(1).ok_or("a group")?;
    let steps = TWO_INSTANCES.get(..count).ok_or("so many steps")?;
    if cells > 4 {
        return Err(Fail::from("few cells"));
    }
    World::replay(alloc, group, cells, MAX_BOUND, steps).map_err(|_| Fail::from("a world"))
}

// Does the steps, and answers whether all were done.
pub(super) fn does_all(world: &mut World, board: &Board, steps: &[Step]) -> bool {
    for step in steps {
        if world.apply(board, step).is_err() {
            return false;
        }
    }
    true
}

// A batch of one message, as its instance and the message's number.
pub(super) type Read = Option<(Instance, u32)>;

pub(super) fn read(batch: Option<&Batch>) -> Read {
    let batch = batch?;
    match batch.messages() {
        [message] => Some((batch.instance(), message.number())),
        _ => Some((batch.instance(), 0)),
    }
}

const FIRST: Read = Some((1, 2));

const SECOND: Read = Some((2, 1));

// What a new watcher of the board is answered when it meets the world, how many batches it is then told of, and the next three.
fn met(
    alloc: Global,
    world: &World,
    board: &Board,
) -> Result<(Result<(), Refusal>, usize, [Read; 3]), AllocError> {
    let mut watcher = Watcher::new(alloc, board)?;
    let answer = world.meet(board, &mut watcher);
    let told = watcher.told();
    let first = read(watcher.next(board));
    let second = read(watcher.next(board));
    let third = read(watcher.next(board));
    Ok((answer, told, [first, second, third]))
}

#[test]
fn a_batch_without_a_cell_is_not_posted(rt: HostRuntime) -> Result<(), Fail> {
    let (mut world, board) = after(rt.alloc(), 1, 23)?;
    let refusal = world.apply(&board, &TWO_INSTANCES[23]).err();
    let met = met(rt.alloc(), &world, &board)?;
    assert!(rt; refusal == Some(Refusal::Full(Limit::Cells)) && world.record().len() == 23);
    assert_eq!(rt; met, (Ok(()), 1, [FIRST, None, None]));
    Ok(())
}

#[test]
fn the_batches_of_a_replay_are_met_and_read(rt: HostRuntime) -> Result<(), Fail> {
    let (world, board) = after(rt.alloc(), 4, 24)?;
    let met = met(rt.alloc(), &world, &board)?;
    assert_eq!(rt; met, (Ok(()), 2, [FIRST, SECOND, None]));
    Ok(())
}

#[test]
fn a_board_with_a_part_of_the_batches_is_refused(rt: HostRuntime) -> Result<(), Fail> {
    let (mut world, first) = after(rt.alloc(), 4, 13)?;
    let second = Board::new(rt.alloc(), 4)?;
    let done = does_all(&mut world, &second, &TWO_INSTANCES[13..]);
    let of_first = met(rt.alloc(), &world, &first)?;
    let of_second = met(rt.alloc(), &world, &second)?;
    assert!(rt; done);
    assert_eq!(rt; of_first, (Err(Refusal::Board), 0, [FIRST, None, None]));
    assert_eq!(rt; of_second, (Err(Refusal::Board), 0, [None; 3]));
    Ok(())
}

// Which of the first three cells of the board are set, as a new watcher finds.
fn set_cells(alloc: Global, board: &Board) -> Result<[bool; 3], AllocError> {
    let mut watcher = Watcher::new(alloc, board)?;
    let first = watcher.look(board, 0).is_some();
    let second = watcher.look(board, 1).is_some();
    let third = watcher.look(board, 2).is_some();
    Ok([first, second, third])
}

#[test]
fn a_cell_that_is_set_refuses_a_batch(rt: HostRuntime) -> Result<(), Fail> {
    let (mut world, own) = after(rt.alloc(), 4, 12)?;
    let (_, board) = after(rt.alloc(), 4, 13)?;
    let deliver = Step::Deliver(1);
    let refusal = world.apply(&board, &deliver).err();
    let refused = (refusal, world.record().len());
    let set = set_cells(rt.alloc(), &board)?;
    let posted = does_all(&mut world, &own, &[deliver]);
    assert_eq!(rt; refused, (Some(Refusal::Board), 12));
    assert!(rt; set == [true, false, false] && posted);
    Ok(())
}

// Steps that are refused wherever the run stands.
static REFUSED: [Step; 5] = [
    Step::Deliver(0),
    Step::Receive(1, 99),
    Step::Submit(1, Command::Set(16, 7)),
    Step::Repeat(1, 99),
    Step::Follow(2),
];

// Prepares and commits the step, and answers whether it was done.
fn does(world: &mut World, board: &Board, step: &Step) -> bool {
    world.prepare(step).is_ok() && world.prepared().is_some() && world.commit(board).is_ok()
}

// Whether the cells that are set are those of the batches posted so far.
fn has_posted(alloc: Global, world: &World, board: &Board) -> Result<bool, AllocError> {
    let posted = world.posted();
    Ok(set_cells(alloc, board)? == [posted > 0, posted > 1, false])
}

// Whether each step sets no cell but its own, and those that are refused before it none.
fn sets_one_by_one(alloc: Global, world: &mut World, board: &Board) -> Result<bool, AllocError> {
    for step in &TWO_INSTANCES {
        let refused = REFUSED.iter().all(|step| world.apply(board, step).is_err());
        let kept = has_posted(alloc, world, board)?;
        if !refused || !kept || !does(world, board, step) || !has_posted(alloc, world, board)? {
            return Ok(false);
        }
    }
    Ok(world.posted() == 2)
}

#[test]
fn a_step_sets_no_cell_but_its_own(rt: HostRuntime) -> Result<(), Fail> {
    let (mut world, board) = after(rt.alloc(), 4, 0)?;
    let sets = sets_one_by_one(rt.alloc(), &mut world, &board)?;
    assert!(rt; sets);
    Ok(())
}

// Whether one watcher reads all batches, and another, which read the first, goes on after both have shared.
fn share(alloc: Global, board: &Board) -> Result<bool, AllocError> {
    let mut one = Watcher::new(alloc, board)?;
    let mut other = Watcher::new(alloc, board)?;
    let all = read(one.next(board)) == FIRST
        && read(one.next(board)) == SECOND
        && one.next(board).is_none();
    let first = read(other.next(board));
    one.share(&mut other);
    let told = (one.told(), other.told());
    let second = read(other.next(board));
    Ok(
        all && (first, second, told) == (FIRST, SECOND, (0, 0))
            && one.table().get(0) == Some(5)
            && one.table().get(1) == Some(5),
    )
}

#[test]
fn watchers_share_what_they_read(rt: HostRuntime) -> Result<(), Fail> {
    let (_, board) = after(rt.alloc(), 4, 24)?;
    let shared = share(rt.alloc(), &board)?;
    assert!(rt; shared);
    Ok(())
}
