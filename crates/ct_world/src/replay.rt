//! A replay that goes step by step.

ghost use Rattle.std.specs.Prelude.{◌≡◌, ◌<◌, ◌≤◌, ◌+◌, IsTrue, IsFalse, Some, None, length, drop, slice_get, OnOk, OnErr, IfOk, IfErr};
ghost use Rattle.ct_names.specs.declared.limit.TheConstants.{MAX_ENVELOPES};
ghost use Rattle.ct_model.specs.Rehearsal.{state_of};
ghost use Rattle.ct_model.specs.Run.{run};
ghost use Rattle.ct_world.specs.Replay.{IsFaultOf};
ghost use Rattle.ct_world.specs.Setup.{record_of};
ghost use Rattle.ct_world.specs.Stage.{AllowsDone, so_far};
ghost use Rattle.ct_world.specs.World.{IsDone};

use crate::replay_fault::ReplayFault;
use crate::setup::Setup;
use crate::stage::Stage;
use crate::world::World;
use ct_board::Board;
use ct_model::Step;
use ct_names::{MAX_ENVELOPES, Refusal};
use std::alloc::Global;
use std::marker::Model;

/// A list of steps that is replayed on a world and a board of its own, one step at a time, so that something can be done
/// between them.
#[derive(Drop)]
pub struct Replay<'s> {
    stage: Stage,
    steps: &'s [Step],
}

/// A step of a replay that was done.
#[derive(Clone, Copy, Debug, PartialEq, Eq)]
pub struct Replayed {
    /// The step.
    pub step: Step,
    /// Its number, counted from 1.
    pub number: usize,
    /// How many envelopes had been sent before it.
    pub before: u32,
    /// How many it sent.
    pub sent: u32,
}

// Contracts see the whole record and how many of its steps are done.
impl<'s> Model for Replay<'s> {
    ghost use Rattle.std.specs.Prelude.{length};
    ghost use Rattle.ct_world.specs.Stage.{IsReplaying, ReplayView};

    ghost Value = { ReplayView };

    ghost view = { λ r. record {
      whole = record r.stage.rehearsal { steps = r.steps.now };
      done = length r.stage.rehearsal.steps;
    } };

    ghost invariant = { λ r. IsReplaying r.stage.rehearsal r.steps.now };
}

impl<'s> Replay<'s> {
    /// A replay of these steps of which none is done. Only memory can be refused.
    pub fn new(alloc: Global, setup: Setup, steps: &'s [Step]) -> Result<Replay<'s>, ReplayFault>
        ensures ok { IfOk result (λ replay. replay ≡ record { whole = record_of setup steps.now; done = 0 }) }
        ensures err { IfErr result (λ fault. fault ≡ record { at = 0; refusal = Refusal.OutOfMemory }) }
    {
        match Stage::new(alloc, setup) {
            Ok(stage) => Ok(Replay { stage, steps }),
            Err(refusal) => Err(ReplayFault { at: 0, refusal }),
        }
    }

    /// Whether all steps are done. Each that is done was allowed.
    #[inline]
    pub fn is_over(&self) -> bool
        ensures over { IsTrue result → self.now.done ≡ length self.now.whole.steps }
        ensures left { IsFalse result → self.now.done < length self.now.whole.steps }
        ensures allowed { AllowsDone self.now }
    {
        self.stage.world().record().len() == self.steps.len()
    }

    /// Does the next step, or tells why it is refused; then nothing changes.
    #[inline]
    pub fn step(&mut self) -> Result<Replayed, ReplayFault>
        requires { self.old.done < length self.old.whole.steps }
        ensures ok { OnOk result (self.new ≡ record self.old { done = self.old.done + 1 }) }
        ensures step { IfOk result (λ it. slice_get self.old.whole.steps self.old.done ≡ Some it.step) }
        ensures number { IfOk result (λ it. it.number ≡ self.old.done + 1) }
        ensures runs { run self.old.whole.setting (so_far self.old).steps ≡ Some (state_of (so_far self.old)) }
        ensures before { IfOk result (λ it. it.before ≡ length (state_of (so_far self.old)).sent) }
        ensures few { IfOk result (λ it. it.before ≤ MAX_ENVELOPES) }
        ensures done { IfOk result (λ it. IsDone (so_far self.old) it.step (so_far self.new) it.sent) }
        ensures at { IfErr result (λ fault. fault.at ≡ self.old.done + 1) }
        ensures err { IfErr result (λ fault. IsFaultOf self.old.whole.setting self.old.whole.cells self.old.whole.steps
            fault.at fault.refusal) }
        ensures same { OnErr result (self.new ≡ self.old) }
    {
        let done = self.stage.world().record().len();
        let before = self.stage.world().sent();
        let step = self.steps[done];
        let sent = match self.stage.step(&step) {
            Ok(effect) => effect.sent,
            Err(refusal) => {
                return Err(ReplayFault {
                    at: done + 1,
                    refusal,
                });
            }
        };
        Ok(Replayed {
            step,
            number: done + 1,
            before,
            sent,
        })
    }

    /// The world after the steps that are done.
    #[inline]
    pub fn world(&self) -> &World
        ensures { result.now ≡ record { rehearsal = so_far self.now; prepared = None } }
    {
        self.stage.world()
    }

    /// The steps that are not done yet.
    pub fn left(&self) -> &'s [Step]
        ensures { result.now ≡ drop self.now.done self.now.whole.steps }
    {
        &self.steps[self.stage.world().record().len()..]
    }

    /// The world after the steps that are done, and the board with their batches, of as many cells.
    pub fn into_parts(self) -> (World, Board)
        ensures world { result.0 ≡ record { rehearsal = so_far self.entry; prepared = None } }
        ensures board { length result.1 ≡ self.entry.whole.cells }
    {
        self.stage.into_parts()
    }
}
