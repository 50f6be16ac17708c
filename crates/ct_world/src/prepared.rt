//! A step that room was made for.

ghost use Rattle.std.specs.Prelude.{◌≡◌};
ghost use Rattle.ct_world.specs.Prepared.{step_in};

use crate::closing::Closing;
use ct_abcast::Batch;
use ct_model::{Move, Step};
use ct_names::{Command, Member, MsgSet, Serial, ValueId};

/// A step that is allowed and that room was made for, with what was found and made for it.
#[derive(Drop)]
pub(crate) enum Prepared {
    /// Submit.
    Submit(Member, Command),
    /// Receive, and the place of the serial in the member's line.
    Receive(Member, Serial, usize),
    /// Begin, and the set that the member proposes.
    Begin(Member, MsgSet),
    /// A step of a round.
    Round(Member, Move),
    /// Deliver or Follow: the number of the value that is delivered, and the batch that is posted, if one is.
    Close(Closing, Member, ValueId, Option<Box<Batch>>),
    /// Crash.
    Crash(Member),
    /// Postpone, and the place of the serial.
    Postpone(Member, Serial, usize),
    /// Lose, and the place of the serial.
    Lose(Member, Serial, usize),
    /// Repeat.
    Repeat(Member, Serial),
}

impl Prepared {
    /// The step.
    pub(crate) fn step(&self) -> Step
        ensures { result ≡ step_in self.now }
    {
        match self {
            Prepared::Submit(member, command) => Step::Submit(*member, *command),
            Prepared::Receive(member, serial, _) => Step::Receive(*member, *serial),
            Prepared::Begin(member, _) => Step::Begin(*member),
            Prepared::Round(member, action) => action.by(*member),
            Prepared::Close(closing, member, _, _) => closing.step(*member),
            Prepared::Crash(member) => Step::Crash(*member),
            Prepared::Postpone(member, serial, _) => Step::Postpone(*member, *serial),
            Prepared::Lose(member, serial, _) => Step::Lose(*member, *serial),
            Prepared::Repeat(member, serial) => Step::Repeat(*member, *serial),
        }
    }
}
