use ct_names::{Command, Group, MAX_BOUND, Member};
use ct_records::{ProgramFault, ReadFault, read_record, report, run_replay};
use ct_world::World;
use std::alloc::{AllocError, Global};

mod crashes;
mod settled;
mod streams;

// Whether the world's record leads to the world's report.
fn is_replayed(alloc: Global, world: &World) -> bool {
    let replayed = World::replay(
        alloc,
        world.group(),
        world.cells(),
        world.bound(),
        world.record(),
    );
    match replayed {
        Ok((again, _)) => reports_alike(alloc, world, &again),
        Err(_) => false,
    }
}

fn reports_alike(alloc: Global, one: &World, other: &World) -> bool {
    match (report(alloc, one), report(alloc, other)) {
        (Ok(one), Ok(other)) => one.as_slice() == other.as_slice(),
        _ => false,
    }
}
