//! A step, in one call or in two.

ghost use Rattle.std.specs.Prelude.{◌≡◌, IsSome, IfSome, Some, None, OnOk, OnErr, IfOk, IfErr, unwrap_or};
ghost use Rattle.ct_model.specs.Cause.{cause};
ghost use Rattle.ct_model.specs.Rehearsal.{state_of};
ghost use Rattle.ct_model.specs.Safe.{IsSafe};
ghost use Rattle.ct_world.specs.Posting.{HasPosted, IsRefusal, IsRefusedByBoard};
ghost use Rattle.ct_world.specs.World.{IsDone};

use crate::effect::Effect;
use crate::world::World;
use ct_board::Board;
use ct_model::Step;
use ct_names::Refusal;

impl World {
    /// Does the step: `prepare`, then `commit`. It refuses as `enabled`, with OutOfMemory, or as `commit` with Board, and
    /// then changes nothing but that no step is prepared. Done or refused, the state is safe, as `record` says.
    pub fn apply(&mut self, board: &Board, step: &Step) -> Result<Effect, Refusal>
        ensures allowed { OnOk result (cause self.old.rehearsal step.now ≡ None) }
        ensures ok { IfOk result (λ effect. IsDone self.old.rehearsal step.now self.new.rehearsal effect.sent) }
        ensures posted { IfOk result (λ effect. HasPosted board.now self.old.rehearsal self.new.rehearsal effect.receipt) }
        ensures refusal { IfErr result (λ refusal. IsRefusal self.old.rehearsal step.now refusal) }
        ensures err { OnErr result (self.new.rehearsal ≡ self.old.rehearsal) }
        ensures none { self.new.prepared ≡ None }
        ensures safe { IsSafe self.new.rehearsal.setting (state_of self.new.rehearsal) }
    {
        self.prepared = None;
        self.kept.take_at_once(board, step)
    }

    /// Makes the room that the step needs. It refuses as `enabled`, or with OutOfMemory. Then, and not after a refusal,
    /// the step is the prepared one; nothing else changes.
    pub fn prepare(&mut self, step: &Step) -> Result<(), Refusal>
        ensures ok { OnOk result (self.new ≡ record self.old { prepared = Some step.now }) }
        ensures allowed { OnOk result (cause self.old.rehearsal step.now ≡ None) }
        ensures refusal { IfErr result (λ refusal. refusal ≡ unwrap_or (cause self.old.rehearsal step.now) Refusal.OutOfMemory) }
        ensures err { OnErr result (self.new ≡ record self.old { prepared = None }) }
    {
        self.prepared = None;
        self.prepared = Some(self.kept.make_room(step)?);
        Ok(())
    }

    /// Does the prepared step; none is prepared then. The first Deliver or Follow of an instance sets the board's cell at the
    /// number of the instance less 1 to its batch, and answers the receipt. Takes no memory. It is refused only by the board,
    /// where the step would set a cell that is not there or refuses the batch; then nothing else changes.
    pub fn commit(&mut self, board: &Board) -> Result<Effect, Refusal>
        requires { IsSome self.old.prepared }
        ensures done { IfOk result (λ effect. IfSome self.old.prepared
            (λ step. IsDone self.old.rehearsal step self.new.rehearsal effect.sent)) }
        ensures posted { IfOk result (λ effect. HasPosted board.now self.old.rehearsal self.new.rehearsal effect.receipt) }
        ensures refusal { IfErr result (λ refusal. IfSome self.old.prepared (λ step. IsRefusedByBoard self.old.rehearsal step refusal)) }
        ensures err { OnErr result (self.new.rehearsal ≡ self.old.rehearsal) }
        ensures none { self.new.prepared ≡ None }
    {
        let prepared = self.prepared.take().unwrap();
        self.kept.take(board, prepared)
    }
}
