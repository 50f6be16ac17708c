ghost use Rattle.std.specs.Prelude.{◌≡◌, ◌≤◌, OnSome};
ghost use Rattle.ct_rehearse.specs.Plans.{IsWithin, entries};

use ct_board::{Board, Watcher};
use ct_detect::{Detector, Never};
use ct_model::Step;
use ct_names::{Command, Group, MAX_BOUND};
use ct_rehearse::{Desk, Disturbance, Gate, Hall, Made, NoGate, Plan, Share};
use ct_world::World;
use std::alloc::{AllocError, Global};
use std::marker::Brand;
use std::sync::Wait;
use std::sync::ledger::{Blank, Ledger};
use std::test::Fail;
use std::thread::Threads;

mod meeting;
mod runs;
mod watching;

const SEVEN: Command = Command::Set(0, 7);

// A world of n members and four cells after these steps, and its board.
fn after(alloc: Global, n: u8, steps: &[Step]) -> Option<(World, Board)> {
    World::replay(alloc, Group::new(n)?, 4, MAX_BOUND, steps).ok()
}

// Detectors of n members that suspect nobody.
fn never(alloc: Global, n: u8) -> Result<Vec<Box<dyn Detector>>, AllocError> {
    let mut detectors: Vec<Box<dyn Detector>> = Vec::new(alloc);
    for _ in 0..n {
        detectors.push(Box::new(alloc, Never::new())?)?;
    }
    Ok(detectors)
}

// What the turns of a plan in this hall come to, whose members suspect nobody.
fn ran_in<L: Ledger + Send + Sync, R: Threads + Wait + Sync, G: Gate>(
    rt: &R,
    alloc: Global,
    hall: &Hall<L>,
    share: &mut Share<L>,
    plan: &Plan,
    gate: &G,
) -> Option<Made>
    requires plan { IsWithin plan.now }
    requires entries { entries plan.now ≤ 100000 }
    requires parts { share.old.parts ≡ 1000 }
    requires steps { share.old.steps ≤ 1000000 }
    ensures { OnSome result (share.new.parts ≡ 1000) }
{
    let detectors = never(alloc, hall.group().n()).ok()?;
    if usize::from(hall.group().n()) != detectors.len() {
        return None;
    }
    hall.run_free(rt, alloc, plan, detectors, gate, share).ok()
}
