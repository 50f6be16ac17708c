//! Turns of members, and entries of scripts.

ghost use Rattle.std.specs.Prelude.{◌≡◌, ◌+◌, ◌^◌, ◌<◌, MatchOption};
ghost use Rattle.ct_world.specs.Driving.{next_local};
ghost use Rattle.ct_choices.specs.Choices.{HasAsked, ask_of, tried};
ghost use Rattle.ct_rehearse.specs.Entries.{entry_step};
ghost use Rattle.ct_rehearse.specs.Turns.{Answers, share_after_turn, world_after_turn};

use crate::desk::Desk;
use crate::disturbance::Disturbance;
use crate::entries::entry_step;
use crate::outcome::Turn;
use crate::share::Share;
use ct_board::Board;
use ct_choices::tried;
use ct_detect::Detector;
use ct_model::Step;
use ct_names::Member;
use std::sync::ledger::Ledger;

/// Makes a turn of a member: it tries the step that `next_local` says, a suspicion only where the detector, asked of the
/// coordinator of the member's round, says yes; where there is no such step, or the answer is no, it tries the receipt of
/// the first serial of the member's waiting line. A member rests that has crashed, and where nothing is left to try. The
/// board is that of the world.
pub fn turn<L: Ledger>(
    desk: &mut Desk<L>,
    share: &mut Share<L>,
    board: &Board,
    member: Member,
    detector: &mut dyn Detector,
) -> Turn
    requires { share.old.steps + 1 < 2 ^ 64 }
    ensures made { MatchOption (tried desk.old.rehearsal member (last detector.new)) (result ≡ Turn.Resting)
        (λ step. Answers board.now desk.old.rehearsal step desk.new.rehearsal result) }
    ensures asked { HasAsked (next_local desk.old.rehearsal member) (ask_of desk.old.rehearsal member) (last detector.old)
        (last detector.new) }
    ensures world { desk.new ≡ world_after_turn desk.old result }
    ensures share { share.new ≡ share_after_turn share.old result }
{
    match tried(desk.world(), member, detector) {
        None => Turn::Resting,
        Some(step) => attempt(desk, share, board, &step),
    }
}

/// Makes an entry of a script: it tries the entry's step, that of a postponement or a loss with the first serial of the
/// member's waiting line, and rests where there is none.
pub fn disturb<L: Ledger>(
    desk: &mut Desk<L>,
    share: &mut Share<L>,
    board: &Board,
    entry: &Disturbance,
) -> Turn
    requires { share.old.steps + 1 < 2 ^ 64 }
    ensures made { MatchOption (entry_step desk.old.rehearsal entry.now) (result ≡ Turn.Resting)
        (λ step. Answers board.now desk.old.rehearsal step desk.new.rehearsal result) }
    ensures world { desk.new ≡ world_after_turn desk.old result }
    ensures share { share.new ≡ share_after_turn share.old result }
{
    match entry_step(desk.world(), entry) {
        None => Turn::Resting,
        Some(step) => attempt(desk, share, board, &step),
    }
}

// Tries the step.
pub(crate) fn attempt<L: Ledger>(
    desk: &mut Desk<L>,
    share: &mut Share<L>,
    board: &Board,
    step: &Step,
) -> Turn
    requires { share.old.steps + 1 < 2 ^ 64 }
    ensures made { Answers board.now desk.old.rehearsal step.now desk.new.rehearsal result }
    ensures world { desk.new ≡ world_after_turn desk.old result }
    ensures share { share.new ≡ share_after_turn share.old result }
{
    match desk.apply(share, board, step) {
        Ok(effect) => Turn::Stepped(*step, effect),
        Err(refusal) => Turn::Refused(refusal),
    }
}
