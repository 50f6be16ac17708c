//! A world and the count of its steps.

ghost use Rattle.std.specs.Prelude.{◌≡◌, ◌+◌, ◌^◌, ◌<◌, None, IfOk, IfErr, OnErr, OnOk, length};
ghost use Rattle.ct_model.specs.Cause.{cause};
ghost use Rattle.ct_model.specs.Rehearsal.{state_of};
ghost use Rattle.ct_model.specs.Safe.{IsSafe};
ghost use Rattle.ct_rehearse.specs.Shares.{whole_share, risen_by};
ghost use Rattle.ct_world.specs.Posting.{HasPosted, IsRefusal};
ghost use Rattle.ct_world.specs.World.{IsDone};
ghost use Rattle.ct_rehearse.specs.declared.share.TheConstants.{PARTS};

use crate::share::Share;
use ct_board::Board;
use ct_model::Step;
use ct_names::Refusal;
use ct_world::{Effect, World};
use std::alloc::Global;
use std::marker::Model;
use std::sync::ledger::{Blank, Book, Ledger};

/// What threads share under a lock: a world, and the total of all shares, which is the length of the world's record. So
/// who has the whole share knows how many steps the record has.
#[derive(Drop)]
pub struct Desk<L: Ledger> {
    world: World,
    total: Book<L>,
}

// Contracts see the world.
impl<L: Ledger> Model for Desk<L> {
    ghost use Rattle.std.specs.Prelude.{◌≡◌, length};
    ghost use Rattle.ct_world.specs.World.{WorldView};

    ghost Value = { WorldView };

    ghost view = { λ d. d.world };

    ghost invariant = { λ d. length d.world.rehearsal.steps ≡ d.total.total };
}

impl<L: Ledger> Desk<L> {
    /// A desk for this world, and the whole share, which has the steps that the world's record has already. The blank is
    /// that of a new ledger with 1,000 parts.
    pub fn new(blank: Blank, world: World) -> (Desk<L>, Share<L>)
        requires name { blank.name ≡ L.name }
        requires parts { blank.parts ≡ L.parts }
        requires whole { L.parts ≡ PARTS }
        ensures desk { result.0 ≡ world }
        ensures share { result.1 ≡ whole_share (length world.rehearsal.steps) }
    {
        let steps = world.record().len() as u64;
        let (total, share) = Share::open(blank, steps);
        (Desk { world, total }, share)
    }

    /// The world.
    pub fn world(&self) -> &World
        ensures { result.now ≡ self.now }
    {
        &self.world
    }

    // Does the step, and counts it.
    pub(crate) fn apply(
        &mut self,
        share: &mut Share<L>,
        board: &Board,
        step: &Step,
    ) -> Result<Effect, Refusal>
        requires { share.old.steps + 1 < 2 ^ 64 }
        ensures allowed { OnOk result (cause self.old.rehearsal step.now ≡ None) }
        ensures ok { IfOk result (λ effect. IsDone self.old.rehearsal step.now self.new.rehearsal effect.sent) }
        ensures posted { IfOk result (λ effect. HasPosted board.now self.old.rehearsal self.new.rehearsal effect.receipt) }
        ensures counted { OnOk result (share.new ≡ risen_by share.old 1) }
        ensures refusal { IfErr result (λ refusal. IsRefusal self.old.rehearsal step.now refusal) }
        ensures world { OnErr result (self.new.rehearsal ≡ self.old.rehearsal) }
        ensures share { OnErr result (share.new ≡ share.old) }
        ensures none { self.new.prepared ≡ None }
    {
        let effect = self.world.apply(board, step)?;
        share.count(&mut self.total);
        Ok(effect)
    }

    // A copy of the world, which has as many steps as the whole share.
    pub(crate) fn settled(&mut self, alloc: Global, share: &mut Share<L>) -> Result<World, Refusal>
        requires { share.old.parts ≡ L.parts }
        ensures desk { self.new ≡ self.old }
        ensures share { share.new ≡ share.old }
        ensures steps { IfOk result (λ world. length world.rehearsal.steps ≡ share.old.steps) }
        ensures copy { IfOk result (λ world. world ≡ record self.old { prepared = None }) }
        ensures memory { IfErr result (λ refusal. refusal ≡ Refusal.OutOfMemory) }
    {
        self.audit(share);
        self.world.copy(alloc)
    }

    // The world has as many steps as the whole share.
    pub(crate) fn audit(&mut self, share: &mut Share<L>)
        requires { share.old.parts ≡ L.parts }
        ensures desk { self.new ≡ self.old }
        ensures share { share.new ≡ share.old }
        ensures steps { length self.old.rehearsal.steps ≡ share.old.steps }
    {
        share.audit(&mut self.total);
    }

    /// The world, in which no step is prepared.
    // (Nobody's crash is refused, and then none is.)
    #[tactic(auto, unfolding(ct_model::specs::Cause::cause))]
    pub fn into_world(self) -> World
        ensures rehearsal { result.rehearsal ≡ self.rehearsal }
        ensures none { result.prepared ≡ None }
        ensures safe { IsSafe result.rehearsal.setting (state_of result.rehearsal) }
    {
        let Desk {
            mut world,
            total: _,
        } = self;
        if world.prepare(&Step::Crash(0)).is_ok() {
            unreachable!()
        }
        // For its clauses: the record is a run, and the state is safe.
        let _ = world.record();
        world
    }
}
