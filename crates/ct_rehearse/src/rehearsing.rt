//! Whole rehearsals, from a world to a world.

ghost use Rattle.std.specs.Prelude.{◌≡◌, IfOk, IfErr, vec_len};
ghost use Rattle.ct_rehearse.specs.Plans.{IsWithin};
ghost use Rattle.ct_rehearse.specs.Rehearsals.{IsHandedBack, IsRehearsed};
ghost use Rattle.ct_rehearse.specs.declared.share.TheConstants.{PARTS};

use crate::gate::Gate;
use crate::hall::Hall;
use crate::plan::Plan;
use crate::rehearse_fault::RehearseFault;
use crate::rehearsed::Rehearsed;
use crate::run_fault::RunFault;
use crate::share::PARTS;
use ct_board::Board;
use ct_detect::Detector;
use ct_world::World;
use std::alloc::Global;
use std::marker::Brand;
use std::sync::Wait;
use std::sync::ledger::{Blank, Ledger};
use std::thread::Threads;

/// Makes the turns of a plan on this world, as `Hall::run_free` does, and hands the world out after them, with its board,
/// on which the run posted its batches. Whoever wants to look at the world during the run makes a `Hall`.
///
/// A fault hands world and board out too. After `Memory` no turn was made; after `Start` the turns of those that were
/// started were.
pub fn rehearse<R: Threads + Wait + Sync, G: Gate>(
    rt: &R,
    alloc: Global,
    world: World,
    board: Board,
    plan: &Plan,
    detectors: Vec<Box<dyn Detector>>,
    gate: &G,
) -> Result<Rehearsed, RehearseFault>
    requires plan { IsWithin plan.now }
    requires detectors { vec_len detectors ≡ world.rehearsal.setting.members }
    ensures ok { IfOk result (IsRehearsed world.rehearsal board plan.now) }
    ensures err { IfErr result (IsHandedBack world.rehearsal board) }
{
    let blank = Blank::new(PARTS);
    rehearse_in::<Brand, R, G>(rt, alloc, blank, world, board, plan, detectors, gate)
}

// The rehearsal, in a hall whose ledger is the blank's.
fn rehearse_in<L: Ledger + Send + Sync, R: Threads + Wait + Sync, G: Gate>(
    rt: &R,
    alloc: Global,
    blank: Blank,
    world: World,
    board: Board,
    plan: &Plan,
    detectors: Vec<Box<dyn Detector>>,
    gate: &G,
) -> Result<Rehearsed, RehearseFault>
    requires name { blank.name ≡ L.name }
    requires parts { blank.parts ≡ L.parts }
    requires whole { L.parts ≡ PARTS }
    requires plan { IsWithin plan.now }
    requires detectors { vec_len detectors ≡ world.rehearsal.setting.members }
    ensures ok { IfOk result (IsRehearsed world.rehearsal board plan.now) }
    ensures err { IfErr result (IsHandedBack world.rehearsal board) }
{
    let _ = world.record();
    let _ = world.group().n();
    let (hall, mut share) = Hall::<L>::new(blank, world, board);
    let made = hall.run_free(rt, alloc, plan, detectors, gate, &mut share);
    let (mut desk, board) = hall.into_parts();
    match made {
        Ok(made) => {
            desk.audit(&mut share);
            let world = desk.into_world();
            Ok(Rehearsed { world, board, made })
        }
        Err(cause) => {
            if cause == RunFault::Memory {
                desk.audit(&mut share);
            }
            let world = desk.into_world();
            Err(RehearseFault {
                cause,
                world,
                board,
            })
        }
    }
}
