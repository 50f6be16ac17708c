//! A world with a board of its own.

ghost use Rattle.std.specs.Prelude.{◌≡◌, ◌⊎◌, [], None, OnOk, OnErr, IfOk, IfErr, unwrap_or};
ghost use Rattle.ct_model.specs.Cause.{cause};
ghost use Rattle.ct_model.specs.Rehearsal.{state_of};
ghost use Rattle.ct_model.specs.Run.{run};
ghost use Rattle.ct_model.specs.Safe.{IsSafe};
ghost use Rattle.ct_records.specs.View.{rehearsal_of};
ghost use Rattle.ct_world.specs.Posting.{IsRefusal};
ghost use Rattle.ct_world.specs.Replay.{IsFaultOf};
ghost use Rattle.ct_world.specs.Setup.{record_of, setting_of};
ghost use Rattle.ct_world.specs.World.{IsDone};
ghost use Rattle.ct_embed.specs.Applying.{IsFirst};

use crate::sent::Sent;
use ct_model::Step;
use ct_names::Refusal;
use ct_play::Stage;
use ct_records::Script;
use ct_world::{ReplayFault, Setup, World};
use std::alloc::Global;
use std::marker::Model;

/// A world, with the board on which its batches are posted, and whose step sent each envelope.
#[derive(Drop)]
pub(crate) struct OwnWorld {
    stage: Stage,
}

// Contracts see the record.
impl Model for OwnWorld {
    ghost use Rattle.ct_model.specs.Rehearsal.{Rehearsal};

    ghost Value = { Rehearsal };

    ghost view = { λ w. w.stage.rehearsal };
}

impl OwnWorld {
    // A world without steps. Only memory can be refused.
    pub(crate) fn new(alloc: Global, setup: Setup) -> Result<OwnWorld, Refusal>
        ensures ok { IfOk result (λ own. own ≡ record_of setup []) }
        ensures err { IfErr result (λ refusal. refusal ≡ Refusal.OutOfMemory) }
    {
        match Stage::new(alloc, setup) {
            Ok(stage) => Ok(OwnWorld { stage }),
            Err(_) => Err(Refusal::OutOfMemory),
        }
    }

    // Does the step, as `World::apply` does, and tells the serials that it sent.
    #[tactic(auto, using(crate::proofs::Stepping::allowed, crate::proofs::Stepping::is_done))]
    pub(crate) fn apply(&mut self, step: &Step) -> Result<Sent, Refusal>
        ensures allowed { OnOk result (cause self.old step.now ≡ None) }
        ensures ok { IfOk result (λ sent. IsDone self.old step.now self.new sent.count) }
        ensures first { IfOk result (λ sent. IsFirst self.old sent.first sent.count) }
        ensures refusal { IfErr result (IsRefusal self.old step.now) }
        ensures err { OnErr result (self.new ≡ self.old) }
        ensures safe { IsSafe self.new.setting (state_of self.new) }
    {
        let before = self.world().sent();
        // For its clauses: the record is a run, and the state is safe.
        let _ = self.world().record();
        if self.stage.step(*step).is_err() {
            return Err(self.refusal_of(step));
        }
        let _ = self.world().record();
        let count = self.world().sent().saturating_sub(before);
        Ok(Sent::after(before, count))
    }

    // Why the step is not done: its cause, or else want of memory.
    fn refusal_of(&self, step: &Step) -> Refusal
        ensures { result ≡ unwrap_or (cause self.now step.now) Refusal.OutOfMemory }
    {
        match self.world().enabled(step) {
            Err(cause) => cause,
            Ok(()) => Refusal::OutOfMemory,
        }
    }

    // A world of its own with the same setup and record. Only memory or the new board can refuse.
    pub(crate) fn copy(&self, alloc: Global) -> Result<OwnWorld, Refusal>
        ensures ok { IfOk result (λ own. own ≡ self.now) }
        ensures err { IfErr result (λ refusal. (refusal ≡ Refusal.OutOfMemory) ⊎ (refusal ≡ Refusal.Board)) }
    {
        let world = self.world();
        let setup = Setup {
            group: world.group(),
            cells: world.cells(),
            bound: world.bound(),
        };
        match replayed(alloc, setup, world.record()) {
            Ok(own) => Ok(own),
            Err(fault) => Err(fault.refusal),
        }
    }

    // The world of the record, or the first of its steps that is refused.
    #[tactic(auto, using(crate::proofs::Unopened::same_fault))]
    pub(crate) fn of_script(alloc: Global, script: &Script) -> Result<OwnWorld, ReplayFault>
        ensures ok { IfOk result (λ own. own ≡ rehearsal_of script.now) }
        ensures err { IfErr result (λ fault. let w = rehearsal_of script.now in
            IsFaultOf w.setting w.cells w.steps fault.at fault.refusal) }
    {
        let setup = Setup {
            group: script.group,
            cells: script.cells,
            bound: script.batch,
        };
        replayed(alloc, setup, &script.steps)
    }

    // The world.
    pub(crate) fn world(&self) -> &World
        ensures { result.now.rehearsal ≡ self.now }
    {
        self.stage.world()
    }

    // The same with whose step sent each envelope.
    pub(crate) fn stage(&self) -> &Stage
        ensures { result.now.rehearsal ≡ self.now }
    {
        &self.stage
    }
}

// The world to which these steps lead from one without steps, or the first of them that is refused.
fn replayed(alloc: Global, setup: Setup, steps: &[Step]) -> Result<OwnWorld, ReplayFault>
    ensures ok { IfOk result (λ own. own ≡ record_of setup steps.now) }
    ensures err { IfErr result (λ fault. IsFaultOf (setting_of setup) setup.cells steps.now fault.at fault.refusal) }
{
    let mut own = match OwnWorld::new(alloc, setup) {
        Ok(own) => own,
        Err(refusal) => return Err(ReplayFault { at: 0, refusal }),
    };
    for (i, step) in steps.iter().enumerate() {
        if let Err(refusal) = own.apply(step) {
            return Err(ReplayFault { at: i + 1, refusal });
        }
    }
    Ok(own)
}
