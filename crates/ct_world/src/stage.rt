//! A world with its board.

ghost use Rattle.std.specs.Prelude.{◌≡◌, [], None, length, OnOk, OnErr, IfOk, IfErr};
ghost use Rattle.ct_model.specs.Cause.{cause};
ghost use Rattle.ct_model.specs.Rehearsal.{state_of};
ghost use Rattle.ct_model.specs.Safe.{IsSafe};
ghost use Rattle.ct_world.specs.Posting.{HasPosted, IsRefusal};
ghost use Rattle.ct_world.specs.Setup.{record_of};
ghost use Rattle.ct_world.specs.World.{IsDone};

use crate::effect::Effect;
use crate::setup::Setup;
use crate::world::World;
use ct_board::Board;
use ct_model::Step;
use ct_names::Refusal;
use std::alloc::Global;
use std::marker::Model;

/// A world and the board on which its batches are posted, which was made for it.
#[derive(Drop)]
pub struct Stage {
    world: World,
    board: Board,
}

// Contracts see the record and the board.
impl Model for Stage {
    ghost use Rattle.std.specs.Prelude.{◌≡◌, None, length};
    ghost use Rattle.ct_world.specs.Stage.{StageView};

    ghost Value = { StageView };

    ghost view = { λ s. record { rehearsal = s.world.rehearsal; board = s.board } };

    ghost invariant = { λ s. (s.world.prepared ≡ None) × (length s.board ≡ s.world.rehearsal.cells) };
}

impl Stage {
    /// A world without steps, and an empty board of as many cells. Only memory can be refused.
    pub fn new(alloc: Global, setup: Setup) -> Result<Stage, Refusal>
        ensures ok { IfOk result (λ stage. stage.rehearsal ≡ record_of setup []) }
        ensures err { IfErr result (λ refusal. refusal ≡ Refusal.OutOfMemory) }
    {
        let world = World::new(alloc, setup.group, setup.cells, setup.bound)?;
        match Board::new(alloc, usize::from(setup.cells)) {
            Ok(board) => Ok(Stage { world, board }),
            Err(_) => Err(Refusal::OutOfMemory),
        }
    }

    /// Does the step, as `World::apply` does.
    #[inline]
    pub fn step(&mut self, step: &Step) -> Result<Effect, Refusal>
        ensures allowed { OnOk result (cause self.old.rehearsal step.now ≡ None) }
        ensures ok { IfOk result (λ effect. IsDone self.old.rehearsal step.now self.new.rehearsal effect.sent) }
        ensures posted { IfOk result (λ effect. HasPosted self.old.board self.old.rehearsal self.new.rehearsal effect.receipt) }
        ensures refusal { IfErr result (λ refusal. IsRefusal self.old.rehearsal step.now refusal) }
        ensures err { OnErr result (self.new.rehearsal ≡ self.old.rehearsal) }
        ensures board { self.new.board ≡ self.old.board }
    {
        self.world.apply(&self.board, step)
    }

    /// The world. No step is prepared in it.
    #[inline]
    pub fn world(&self) -> &World
        ensures { result.now ≡ record { rehearsal = self.now.rehearsal; prepared = None } }
    {
        &self.world
    }

    /// The world and the board.
    pub fn into_parts(self) -> (World, Board)
        ensures world { result.0 ≡ record { rehearsal = self.rehearsal; prepared = None } }
        ensures board { result.1 ≡ self.board }
        ensures cells { length result.1 ≡ self.rehearsal.cells }
    {
        let Stage { world, board } = self;
        (world, board)
    }
}
