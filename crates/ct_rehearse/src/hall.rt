//! A desk and its board that threads share.

ghost use Rattle.std.specs.Prelude.{◌≡◌, ◌+◌, ◌^◌, ◌<◌, None, IfOk, IfErr, OnErr, OnOk, length};
ghost use Rattle.ct_model.specs.Rehearsal.{state_of};
ghost use Rattle.ct_model.specs.Safe.{IsSafe};
ghost use Rattle.ct_board.specs.Watched.{batches_read, batches_told};
ghost use Rattle.ct_rehearse.specs.Halls.{HasMet};
ghost use Rattle.ct_rehearse.specs.Shares.{whole_share};
ghost use Rattle.ct_rehearse.specs.Turns.{IsEntry, IsTurn, share_after_turn};
ghost use Rattle.ct_rehearse.specs.declared.share.TheConstants.{PARTS};

mod run;

use crate::desk::Desk;
use crate::disturbance::Disturbance;
use crate::outcome::Turn;
use crate::share::Share;
use crate::turns;
use ct_board::{Board, Watcher};
use ct_detect::Detector;
use ct_names::{Group, Member, Refusal};
use ct_world::World;
use std::alloc::Global;
use std::marker::Model;
use std::sync::ledger::{Blank, Ledger};
use std::sync::{Mutex, Wait};

/// A desk under a lock, and the world's board, which needs none; threads share both. Whoever takes the lock finds a world,
/// so a run of the algorithm in a safe state. What happened to the locked world between two calls is known by shares alone:
/// no clause names it.
#[derive(Drop)]
pub struct Hall<L: Ledger> {
    desk: Mutex<Desk<L>>,
    board: Board,
    group: Group,
}

// Contracts see the number of members, and the names of the board's cells.
impl<L: Ledger> Model for Hall<L> {
    ghost use Rattle.ct_rehearse.specs.Halls.{HallView};

    ghost Value = { HallView };

    ghost view = { λ h. record { members = h.group; cells = h.board } };
}

impl<L: Ledger> Hall<L> {
    /// A hall for this world and its board, and the whole share, which has the steps that the world's record has already.
    /// The blank is that of a new ledger with 1,000 parts.
    pub fn new(blank: Blank, world: World, board: Board) -> (Hall<L>, Share<L>)
        requires name { blank.name ≡ L.name }
        requires parts { blank.parts ≡ L.parts }
        requires whole { L.parts ≡ PARTS }
        ensures hall { result.0 ≡ record { members = world.rehearsal.setting.members; cells = board } }
        ensures share { result.1 ≡ whole_share (length world.rehearsal.steps) }
    {
        let group = world.group();
        let (desk, share) = Desk::new(blank, world);
        (
            Hall {
                desk: Mutex::new(desk),
                board,
                group,
            },
            share,
        )
    }

    /// The group of the world that was handed in.
    pub fn group(&self) -> Group
        ensures { result ≡ self.now.members }
    {
        self.group
    }

    /// The board that was handed in, for watchers.
    pub fn board(&self) -> &Board
        ensures { result.now ≡ self.now.cells }
    {
        &self.board
    }

    /// Tells the watcher how many batches were posted, as `World::meet` does, by the world as it stands at some moment of
    /// the call.
    pub fn meet<R: Wait>(&self, rt: &R, watcher: &mut Watcher) -> Result<(), Refusal>
        requires { self.now.cells ≡ watcher.old.cells }
        ensures met { OnOk result (HasMet watcher.old watcher.new) }
        ensures reads { batches_read watcher.new ≡ batches_read watcher.old }
        ensures cells { watcher.new.cells ≡ watcher.old.cells }
        ensures err { OnErr result (batches_told watcher.new ≡ batches_told watcher.old) }
        ensures refusal { IfErr result (λ refusal. refusal ≡ Refusal.Board) }
    {
        let desk = self.desk.lock(rt);
        let world = desk.world();
        // For its clauses: the record is a run, and the state is safe.
        let _ = world.record();
        world.meet(&self.board, watcher)
    }

    /// A copy of the world as it stands at some moment of the call. Only memory can be refused.
    pub fn snapshot<R: Wait>(&self, rt: &R, alloc: Global) -> Result<World, Refusal>
        ensures safe { IfOk result (λ world. IsSafe world.rehearsal.setting (state_of world.rehearsal)) }
        ensures none { IfOk result (λ world. world.prepared ≡ None) }
        ensures err { IfErr result (λ refusal. refusal ≡ Refusal.OutOfMemory) }
    {
        let copy = self.desk.lock(rt).world().copy(alloc)?;
        // For its clauses: the record is a run, and the state is safe.
        let _ = copy.record();
        Ok(copy)
    }

    /// A copy of the world after all that was counted: its record has the share's number of steps. Asks the whole share.
    /// Only memory can be refused.
    pub fn settled<R: Wait>(
        &self,
        rt: &R,
        alloc: Global,
        share: &mut Share<L>,
    ) -> Result<World, Refusal>
        requires { share.old.parts ≡ L.parts }
        ensures steps { IfOk result (λ world. length world.rehearsal.steps ≡ share.old.steps) }
        ensures safe { IfOk result (λ world. IsSafe world.rehearsal.setting (state_of world.rehearsal)) }
        ensures none { IfOk result (λ world. world.prepared ≡ None) }
        ensures err { IfErr result (λ refusal. refusal ≡ Refusal.OutOfMemory) }
        ensures share { share.new ≡ share.old }
    {
        let copy = self.desk.lock(rt).settled(alloc, share)?;
        // For its clauses: the record is a run, and the state is safe.
        let _ = copy.record();
        Ok(copy)
    }

    // The desk and the board.
    pub(crate) fn into_parts(self) -> (Desk<L>, Board)
        ensures { result.1 ≡ self.cells }
    {
        let Hall {
            desk,
            board,
            group: _,
        } = self;
        (desk.into_inner(), board)
    }

    // A turn of a member, on the world that the lock has.
    pub(crate) fn turn<R: Wait>(
        &self,
        rt: &R,
        share: &mut Share<L>,
        member: Member,
        detector: &mut dyn Detector,
    ) -> Turn
        requires { share.old.steps + 1 < 2 ^ 64 }
        ensures turn { IsTurn self.now.cells member (last detector.old) (last detector.new) result }
        ensures share { share.new ≡ share_after_turn share.old result }
    {
        let mut desk = self.desk.lock(rt);
        // For its clauses: the record is a run, and the state is safe.
        let _ = desk.world().record();
        turns::turn(&mut *desk, share, &self.board, member, detector)
    }

    // An entry of a script, on the world that the lock has.
    pub(crate) fn disturb<R: Wait>(&self, rt: &R, share: &mut Share<L>, entry: &Disturbance) -> Turn
        requires { share.old.steps + 1 < 2 ^ 64 }
        ensures entry { IsEntry self.now.cells entry.now result }
        ensures share { share.new ≡ share_after_turn share.old result }
    {
        let mut desk = self.desk.lock(rt);
        // For its clauses: the record is a run, and the state is safe.
        let _ = desk.world().record();
        turns::disturb(&mut *desk, share, &self.board, entry)
    }
}
