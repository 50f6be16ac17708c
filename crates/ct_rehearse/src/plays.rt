//! Lists of steps, with those that the world refuses.

ghost use Rattle.std.specs.Prelude.{◌≡◌, ◌+◌, ◌^◌, ◌<◌, length};
ghost use Rattle.ct_model.specs.Passed.{extended_by, passed};
ghost use Rattle.ct_rehearse.specs.Plays.{HasPlayed, played_after, prepared_after, tries};
ghost use Rattle.ct_rehearse.specs.Shares.{risen_by};

use crate::desk::Desk;
use crate::outcome::Turn;
use crate::share::Share;
use crate::turns::attempt;
use ct_board::Board;
use ct_model::Step;
use ct_names::Refusal;
use std::sync::ledger::Ledger;

/// How many steps of a list came to what.
#[derive(Clone, Copy, Debug, PartialEq, Eq)]
pub struct Played {
    /// The steps that the world did.
    pub applied: u64,
    /// The steps that the world refused for a cause of their own.
    pub refused: u64,
    /// The steps that were allowed, for which memory was refused, or a cell of the board.
    pub short: u64,
}

impl Played {
    // No steps.
    fn none() -> Played
        ensures { result ≡ record { applied = 0; refused = 0; short = 0 } }
    {
        Played {
            applied: 0,
            refused: 0,
            short: 0,
        }
    }

    // One step more.
    fn count(&mut self, turn: &Turn)
        requires { tries self.old + 1 < 2 ^ 64 }
        ensures { self.new ≡ played_after self.old turn.now }
    {
        match turn {
            Turn::Stepped(_, _) => self.applied += 1,
            Turn::Resting => {}
            Turn::Refused(Refusal::OutOfMemory) => self.short += 1,
            Turn::Refused(Refusal::Board) => self.short += 1,
            Turn::Refused(_) => self.refused += 1,
        }
    }
}

/// Tries each step of the list in turn, and goes on after a refusal. The board is that of the world. It takes no lock, and
/// time linear in the list's length but for what the steps themselves take.
pub fn play<L: Ledger>(
    desk: &mut Desk<L>,
    share: &mut Share<L>,
    board: &Board,
    steps: &[Step],
) -> Played
    requires { share.old.steps + length steps.now < 2 ^ 64 }
    ensures total { tries result ≡ length steps.now }
    // Where nothing was short, each step was done that was allowed when it was tried, and no other.
    ensures all { result.short ≡ 0 → desk.new.rehearsal ≡ extended_by desk.old.rehearsal (passed desk.old.rehearsal steps.now) }
    ensures some { HasPlayed desk.old.rehearsal steps.now desk.new.rehearsal result }
    ensures group { desk.new.rehearsal.setting ≡ desk.old.rehearsal.setting }
    ensures cells { desk.new.rehearsal.cells ≡ desk.old.rehearsal.cells }
    ensures prepared { desk.new.prepared ≡ prepared_after desk.old.prepared steps.now }
    ensures share { share.new ≡ risen_by share.old result.applied }
{
    let mut played = Played::none();
    for step in steps {
        let turn = attempt(desk, share, board, step);
        played.count(&turn);
    }
    played
}
