//! The steps of a record, one by one.

use ct_board::Board;
use ct_model::Step;
use ct_names::{Member, Refusal};
use ct_records::{ProgramFault, read_record};
use ct_world::World;
use std::alloc::Global;
use std::mem;

/// Does the steps of the record, each at the second try where memory was refused at the first; the world must then be as
/// it was before. The world after all steps, and the number of the last step that was refused; 0 where none was.
pub fn do_one_by_one(alloc: Global, record: &[u8]) -> Result<(World, usize), ProgramFault> {
    let script = read_record(alloc, record)?;
    let (mut world, board) = World::replay(alloc, script.group, script.cells, script.batch, &[])?;
    let refused = do_all(alloc, &mut world, &board, &script.steps)?;
    Ok((world, refused))
}

// Does the steps one by one. The number of the last step that was refused.
fn do_all(
    alloc: Global,
    world: &mut World,
    board: &Board,
    steps: &[Step],
) -> Result<usize, ProgramFault> {
    let mut refused = 0;
    for (i, step) in steps.iter().enumerate() {
        if !do_one(alloc, world, board, step)? {
            refused = i + 1;
        }
    }
    Ok(refused)
}

// Does the step, and answers whether it was done at the first try. It is done in a copy of the world before it, which
// has no room to spare, so that each step has to ask for memory.
fn do_one(
    alloc: Global,
    world: &mut World,
    board: &Board,
    step: &Step,
) -> Result<bool, ProgramFault> {
    let Ok(mut next) = world.copy(alloc) else {
        return Err(ProgramFault::Memory);
    };
    let done = do_at_last(world, &mut next, board, step);
    let before = mem::replace(world, next);
    drop(before);
    done
}

// Does the step in a copy of the world before it. Whether it was done at the first try.
fn do_at_last(
    before: &World,
    world: &mut World,
    board: &Board,
    step: &Step,
) -> Result<bool, ProgramFault> {
    match world.apply(board, step) {
        Ok(_) => return Ok(true),
        Err(Refusal::OutOfMemory) => {}
        Err(refusal) => return Err(ProgramFault::Replay { at: 0, refusal }),
    }
    if is_same(before, world) && world.apply(board, step).is_ok() {
        Ok(false)
    } else {
        Err(ProgramFault::Exchanged)
    }
}

// Whether the worlds agree in what a step changes: the record, the envelopes, the lines and the batches.
fn is_same(one: &World, other: &World) -> bool {
    other.prepared().is_none()
        && one.record() == other.record()
        && one.sent() == other.sent()
        && one.posted() == other.posted()
        && (0..one.group().n()).all(|i| waits_the_same(one, other, i + 1))
}

fn waits_the_same(one: &World, other: &World, member: Member) -> bool {
    match (one.waiting(member), other.waiting(member)) {
        (Some(line), Some(same)) => line == same,
        _ => false,
    }
}
