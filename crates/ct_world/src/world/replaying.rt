//! From a list of steps to their world.

ghost use Rattle.std.specs.Prelude.{◌≡◌, ◌≤◌, length, OnOk, IfOk, IfErr, Some};
ghost use Rattle.ct_model.specs.Rehearsal.{state_of};
ghost use Rattle.ct_model.specs.Run.{run};
ghost use Rattle.ct_model.specs.Safe.{IsSafe};
ghost use Rattle.ct_world.specs.Replay.{world_after, AllowsFirst, IsFaultOf};

use crate::replay::Replay;
use crate::replay_fault::ReplayFault;
use crate::setup::Setup;
use crate::world::World;
use ct_board::Board;
use ct_model::Step;
use ct_names::{Group, MAX_BOUND, MAX_CELLS};
use std::alloc::Global;

impl World {
    /// The world that these steps lead to and the board with their batches, or the first of the steps that is refused.
    /// Both are made for them; the board has as many cells as the world.
    pub fn replay(
        alloc: Global,
        group: Group,
        cells: u16,
        bound: u32,
        steps: &[Step],
    ) -> Result<(World, Board), ReplayFault>
        requires few { cells ≤ MAX_CELLS }
        requires some { 1 ≤ bound }
        requires bounded { bound ≤ MAX_BOUND }
        ensures ok { IfOk result (λ both. both.0 ≡ world_after (record { members = group; bound = bound }) cells steps.now) }
        ensures board { IfOk result (λ both. length both.1 ≡ cells) }
        ensures allowed { OnOk result (AllowsFirst (record { members = group; bound = bound }) cells steps.now (length steps.now)) }
        ensures runs { IfOk result (λ both. run both.0.rehearsal.setting both.0.rehearsal.steps ≡ Some (state_of both.0.rehearsal)) }
        ensures safe { IfOk result (λ both. IsSafe both.0.rehearsal.setting (state_of both.0.rehearsal)) }
        ensures err { IfErr result (λ fault. IsFaultOf (record { members = group; bound = bound }) cells steps.now fault.at fault.refusal) }
    {
        let setup = Setup {
            group,
            cells,
            bound,
        };
        let mut replay = Replay::new(alloc, setup, steps)?;
        while !replay.is_over() {
            replay.step()?;
        }
        let (world, board) = replay.into_parts();
        // For its clauses: the record is a run, and the state is safe.
        let _ = world.record();
        Ok((world, board))
    }
}
