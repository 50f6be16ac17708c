//! A free run of one member.

ghost use Rattle.std.specs.Prelude.{◌≡◌, ◌≤◌};
ghost use Rattle.ct_names.specs.declared.limit.TheConstants.{MAX_STEPS};
ghost use Rattle.ct_growths.specs.declared.free_run.TheConstants.{PARTS};

use ct_detect::{Detector, Never};
use ct_model::Step;
use ct_names::{Command, Group, MAX_BOUND};
use ct_records::ProgramFault;
use ct_rehearse::{Hall, Made, NoGate, Plan, RunFault, Share};
use ct_world::World;
use std::alloc::Global;
use std::sync::Wait;
use std::sync::ledger::{Blank, Ledger};
use std::thread::Threads;

/// How many parts the whole of a run's ledger has.
pub const PARTS: u64 = 1_000;

// How many turns the member makes, and how many cells there are for its batches.
const TURNS: u32 = 100;

const CELLS: u16 = 4;

/// Runs one member for 100 turns, with one message submitted. What the run answers; the hall it leaves must have a world
/// with as many steps as the share, which is replayed, unless a part of the share was lost with a thread.
pub fn free_run<L: Ledger + Send + Sync, R: Threads + Wait + Sync>(
    rt: &R,
    alloc: Global,
    blank: Blank,
) -> Result<Result<Made, RunFault>, ProgramFault>
    requires name { blank.name ≡ L.name }
    requires parts { blank.parts ≡ L.parts }
    requires whole { L.parts ≡ PARTS }
{
    let Some(group) = Group::new(1) else {
        return Err(ProgramFault::Exchanged);
    };
    let submitted = [Step::Submit(1, Command::Set(0, 7))];
    let (world, board) = World::replay(alloc, group, CELLS, MAX_BOUND, &submitted)?;
    let _ = world.record();
    let (hall, mut share) = Hall::<L>::new(blank, world, board);
    run_in(rt, alloc, &hall, &mut share)
}

// Makes the turns in this hall, and looks at what they leave.
fn run_in<L: Ledger + Send + Sync, R: Threads + Wait + Sync>(
    rt: &R,
    alloc: Global,
    hall: &Hall<L>,
    share: &mut Share<L>,
) -> Result<Result<Made, RunFault>, ProgramFault>
    requires parts { share.old.parts ≡ PARTS }
    requires steps { share.old.steps ≤ MAX_STEPS }
    requires whole { L.parts ≡ PARTS }
{
    let made = run_one(rt, alloc, hall, share)?;
    settle(rt, alloc, hall, share)?;
    Ok(made)
}

// Makes the one member's turns.
fn run_one<L: Ledger + Send + Sync, R: Threads + Wait + Sync>(
    rt: &R,
    alloc: Global,
    hall: &Hall<L>,
    share: &mut Share<L>,
) -> Result<Result<Made, RunFault>, ProgramFault>
    requires parts { share.old.parts ≡ PARTS }
    requires steps { share.old.steps ≤ MAX_STEPS }
{
    let mut detectors: Vec<Box<dyn Detector>> = Vec::new(alloc);
    detectors.push(Box::new(alloc, Never::new())?)?;
    if detectors.len() != usize::from(hall.group().n()) {
        return Err(ProgramFault::Exchanged);
    }
    let plan = Plan {
        turns: TURNS,
        scripts: Vec::new(alloc),
    };
    Ok(hall.run_free(rt, alloc, &plan, detectors, &NoGate, share))
}

// Looks at the hall's world, unless a part of the share was lost with a thread.
fn settle<L: Ledger, R: Wait>(
    rt: &R,
    alloc: Global,
    hall: &Hall<L>,
    share: &mut Share<L>,
) -> Result<(), ProgramFault>
    requires { L.parts ≡ PARTS }
{
    if share.parts() != PARTS {
        return Ok(());
    }
    let Ok(world) = hall.settled(rt, alloc, share) else {
        return Err(ProgramFault::Memory);
    };
    replay_again(alloc, &world, share.steps())
}

// The world has so many steps, and they lead to it.
fn replay_again(alloc: Global, world: &World, steps: u64) -> Result<(), ProgramFault> {
    if world.record().len() as u64 != steps {
        return Err(ProgramFault::Exchanged);
    }
    let (again, _) = World::replay(
        alloc,
        world.group(),
        world.cells(),
        world.bound(),
        world.record(),
    )?;
    if again.record() == world.record() {
        Ok(())
    } else {
        Err(ProgramFault::Exchanged)
    }
}
