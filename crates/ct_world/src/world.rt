//! The world: a record of steps, and what they lead to.

ghost use Rattle.std.specs.Prelude.{◌≡◌, ◌≤◌, ◌&&◌, [], length, IfOk, IfErr, IfSome, None, Some};
ghost use Rattle.ct_model.specs.Cause.{cause};
ghost use Rattle.ct_model.specs.Lawful.{IsLawful, IsWithin};
ghost use Rattle.ct_model.specs.Rehearsal.{state_of};
ghost use Rattle.ct_model.specs.Run.{run};
ghost use Rattle.ct_model.specs.Safe.{IsSafe};
ghost use Rattle.ct_world.specs.Replay.{world_after};

use crate::kept::Kept;
use crate::prepared::Prepared;
use crate::seats;
use ct_model::Step;
use ct_names::{Book, Group, MAX_BOUND, MAX_CELLS, MAX_STEPS, Refusal};
use ct_network::Network;
use std::alloc::Global;
use std::marker::Model;

mod applying;
mod copying;
mod deciding;
mod enabling;
mod meeting;
mod next_local;
mod outcome;
mod reading;
mod replaying;
mod standing;

/// A group's network, its members and their crash marks, and the record of the steps that led there. Every world's
/// record is a run of the algorithm that ends in this world (Chandra and Toueg, sections 4, 6.2 and 7), whatever was
/// asked of it; what is not allowed is refused and changes nothing.
#[derive(Drop)]
pub struct World {
    kept: Kept,
    // The step that room was made for.
    prepared: Option<Prepared>,
}

// Contracts see what is fixed, the record of steps, and the prepared step. All else follows from the record.
impl Model for World {
    ghost use Rattle.std.specs.Prelude.{option_map};
    ghost use Rattle.ct_world.specs.Prepared.{step_in};
    ghost use Rattle.ct_world.specs.World.{WorldView};

    ghost Value = { WorldView };

    ghost use Rattle.ct_world.specs.Kept.{IsReady, rehearsal_of};

    ghost view = { λ a. record { rehearsal = rehearsal_of a.kept; prepared = option_map step_in a.prepared } };

    ghost invariant = { λ a. IsReady a.kept a.prepared };
}

impl World {
    /// A world without steps, for this group, with this many cells for batches, 0 to 1,024, where a member proposes so many
    /// messages at most, 1 to 1,048,560. Only memory can be refused.
    pub fn new(alloc: Global, group: Group, cells: u16, bound: u32) -> Result<World, Refusal>
        requires few { cells ≤ MAX_CELLS }
        requires some { 1 ≤ bound }
        requires bounded { bound ≤ MAX_BOUND }
        ensures ok { IfOk result (λ world. world ≡ world_after (record { members = group; bound = bound }) cells []) }
        ensures err { IfErr result (λ refusal. refusal ≡ Refusal.OutOfMemory) }
    {
        let Ok(network) = Network::new(alloc, group.n()) else {
            return Err(Refusal::OutOfMemory);
        };
        let Ok(seats) = seats::new_seats(alloc, group) else {
            return Err(Refusal::OutOfMemory);
        };
        Ok(World {
            kept: Kept {
                group,
                cells,
                bound,
                steps: Vec::new(alloc),
                network,
                book: Book::new(alloc),
                seats,
                alloc,
            },
            prepared: None,
        })
    }

    /// The group.
    pub fn group(&self) -> Group
        ensures { result ≡ self.now.rehearsal.setting.members }
    {
        self.kept.group
    }

    /// The number of cells for batches.
    pub fn cells(&self) -> u16
        ensures value { result ≡ self.now.rehearsal.cells }
        ensures few { result ≤ MAX_CELLS }
    {
        self.kept.cells
    }

    /// How many messages a member proposes at most for an instance.
    pub fn bound(&self) -> u32
        ensures value { result ≡ self.now.rehearsal.setting.bound }
        ensures some { 1 ≤ result }
        ensures few { result ≤ MAX_BOUND }
    {
        self.kept.bound
    }

    /// The steps so far, in order: a run, of at most 1,000,000 steps, that passes no limit. What waits at a member are the
    /// serials that were sent to it and aren't gone, each once, by rising stamp (`law_line`). Its state is safe: two
    /// decisions of one instance are equal, and some member proposed that value for the instance; of two delivered
    /// sequences one begins the other, without repeats, only of messages that were submitted; no batch has more messages
    /// than the bound.
    pub fn record(&self) -> &[Step]
        ensures value { result.now ≡ self.now.rehearsal.steps }
        ensures few { length result.now ≤ MAX_STEPS }
        ensures runs { run self.now.rehearsal.setting result.now ≡ Some (state_of self.now.rehearsal) }
        ensures within { IsWithin self.now.rehearsal.cells (state_of self.now.rehearsal) (length result.now) }
        ensures lawful { IsLawful self.now.rehearsal }
        ensures safe { IsSafe self.now.rehearsal.setting (state_of self.now.rehearsal) }
    {
        &self.kept.steps
    }

    /// The step that room was made for, and that `commit` does. It is allowed.
    pub fn prepared(&self) -> Option<Step>
        ensures value { result ≡ self.now.prepared }
        ensures allowed { IfSome result (λ step. cause self.now.rehearsal step ≡ None) }
    {
        let prepared = self.prepared.as_ref()?;
        Some(prepared.step())
    }
}
