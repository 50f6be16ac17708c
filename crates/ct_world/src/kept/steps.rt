//! What is done for each kind of step: the test of whether it is allowed, and its two halves.

ghost use Rattle.std.specs.Prelude.{◌≡◌, None, IfErr, IfOk, OnErr, OnOk};
ghost use Rattle.ct_model.specs.Cause.{cause};
ghost use Rattle.ct_world.specs.Kept.{HasRoom, IsSound, IsVerdict, MakesRoom, rehearsal_of};
ghost use Rattle.ct_world.specs.Posting.{HasPosted, IsRefusal, IsRefusedByBoard};
ghost use Rattle.ct_world.specs.Prepared.{step_in};
ghost use Rattle.ct_world.specs.World.{IsDone};

use crate::closing::Closing;
use crate::effect::Effect;
use crate::kept::Kept;
use crate::prepared::Prepared;
use ct_board::Board;
use ct_model::{Move, Step};
use ct_names::Refusal;

impl Kept {
    /// Whether the step is allowed, and why it is not.
    pub(crate) fn cause(&self, step: &Step) -> Result<(), Refusal>
        requires { IsSound self.now }
        ensures { IsVerdict (cause (rehearsal_of self.now) step.now) result }
    {
        match step {
            Step::Submit(member, command) => self.cause_of_submit(*member, command),
            Step::Receive(member, serial) => self.cause_of_receive(*member, *serial),
            Step::Begin(member) => self.cause_of_begin(*member),
            Step::Enter(member) => self.cause_of_round(*member, Move::Enter),
            Step::Choose(member, from) => self.cause_of_round(*member, Move::Choose(*from)),
            Step::Adopt(member) => self.cause_of_round(*member, Move::Adopt),
            Step::Suspect(member) => self.cause_of_round(*member, Move::Suspect),
            Step::Conclude(member) => self.cause_of_round(*member, Move::Conclude),
            Step::Deliver(member) => self.cause_of_deliver(*member),
            Step::Follow(member) => self.cause_of_follow(*member),
            Step::Crash(member) => self.cause_of_crash(*member),
            Step::Postpone(member, serial) => self.cause_of_line(*member, *serial),
            Step::Lose(member, serial) => self.cause_of_line(*member, *serial),
            Step::Repeat(member, serial) => self.cause_of_repeat(*member, *serial),
        }
    }

    /// Makes the room that the step needs, where it is allowed. What is kept stays the same.
    pub(crate) fn make_room(&mut self, step: &Step) -> Result<Prepared, Refusal>
        requires { IsSound self.old }
        ensures { MakesRoom self.old step.now self.new result }
    {
        match *step {
            Step::Submit(member, command) => self.prepare_submit(member, command),
            Step::Receive(member, serial) => self.prepare_receive(member, serial),
            Step::Begin(member) => self.prepare_begin(member),
            Step::Enter(member) => self.prepare_round(member, Move::Enter),
            Step::Choose(member, from) => self.prepare_round(member, Move::Choose(from)),
            Step::Adopt(member) => self.prepare_round(member, Move::Adopt),
            Step::Suspect(member) => self.prepare_round(member, Move::Suspect),
            Step::Conclude(member) => self.prepare_round(member, Move::Conclude),
            Step::Deliver(member) => self.prepare_closing(Closing::Open, member),
            Step::Follow(member) => self.prepare_closing(Closing::Next, member),
            Step::Crash(member) => self.prepare_crash(member),
            Step::Postpone(member, serial) => self.prepare_postpone(member, serial),
            Step::Lose(member, serial) => self.prepare_lose(member, serial),
            Step::Repeat(member, serial) => self.prepare_repeat(member, serial),
        }
    }

    /// Does the step, as `make_room` and then `take`. The most frequent ones look at what they need once.
    pub(crate) fn take_at_once(&mut self, board: &Board, step: &Step) -> Result<Effect, Refusal>
        requires sound { IsSound self.old }
        ensures allowed { OnOk result (cause (rehearsal_of self.old) step.now ≡ None) }
        ensures done { IfOk result (λ effect. IsDone (rehearsal_of self.old) step.now (rehearsal_of self.new) effect.sent) }
        ensures posted { IfOk result (λ effect. HasPosted board.now (rehearsal_of self.old) (rehearsal_of self.new) effect.receipt) }
        ensures refusal { IfErr result (λ refusal. IsRefusal (rehearsal_of self.old) step.now refusal) }
        ensures same { OnErr result (rehearsal_of self.new ≡ rehearsal_of self.old) }
        ensures sound { IsSound self.new }
    {
        match *step {
            Step::Receive(member, serial) => {
                Ok(Effect::of(self.receive_at_once(member, serial)?))
            }
            Step::Postpone(member, serial) => {
                Ok(Effect::of(self.postpone_at_once(member, serial)?))
            }
            _ => {
                let room = self.make_room(step)?;
                self.take(board, room)
            }
        }
    }

    /// Does the step that the room was made for. The board is refused before anything is done, and nothing changes then.
    pub(crate) fn take(&mut self, board: &Board, room: Prepared) -> Result<Effect, Refusal>
        requires sound { IsSound self.old }
        requires ready { HasRoom self.old room }
        ensures done { IfOk result (λ effect. IsDone (rehearsal_of self.old) (step_in room) (rehearsal_of self.new) effect.sent) }
        ensures posted { IfOk result (λ effect. HasPosted board.now (rehearsal_of self.old) (rehearsal_of self.new) effect.receipt) }
        ensures refusal { IfErr result (λ refusal. IsRefusedByBoard (rehearsal_of self.old) (step_in room) refusal) }
        ensures same { OnErr result (rehearsal_of self.new ≡ rehearsal_of self.old) }
        ensures sound { IsSound self.new }
    {
        match room {
            Prepared::Submit(member, command) => Ok(Effect::of(self.submit(member, command))),
            Prepared::Receive(member, serial, at) => {
                Ok(Effect::of(self.receive(member, serial, at)))
            }
            Prepared::Begin(member, proposal) => Ok(Effect::of(self.begin(member, proposal))),
            Prepared::Round(member, action) => Ok(Effect::of(self.turn(member, action))),
            Prepared::Close(closing, member, number, batch) => {
                let receipt = self.close(board, closing, member, number, batch)?;
                Ok(Effect { sent: 0, receipt })
            }
            Prepared::Crash(member) => Ok(Effect::of(self.crash(member))),
            Prepared::Postpone(member, serial, at) => {
                Ok(Effect::of(self.postpone(member, serial, at)))
            }
            Prepared::Lose(member, serial, at) => Ok(Effect::of(self.lose(member, serial, at))),
            Prepared::Repeat(member, serial) => Ok(Effect::of(self.repeat(member, serial))),
        }
    }
}
