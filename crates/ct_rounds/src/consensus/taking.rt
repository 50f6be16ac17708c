//! The steps of a round, where none of their tests refuses them.

ghost use Rattle.std.specs.Prelude.{◌≡◌, ◌<◌, false, ◌&&◌, nat_lt, ◌+◌, None};
ghost use Rattle.ct_model.specs.Moves.{is_enter};
ghost use Rattle.ct_model.specs.declared.moves.Move.TheVariants.{Choose, Adopt, Suspect, Conclude};
ghost use Rattle.ct_model.specs.Test.{first_fault};
ghost use Rattle.ct_rounds.specs.Part.{IsTurn, row, tests, enter_row, enter_tests};

use super::Consensus;
use crate::inbox::Inbox;
use ct_model::{Mail, Move, Phase, Wire};
use ct_names::{MAX_ROUNDS, Member};

impl Consensus {
    /// Takes a step that its fault allows, and that begins no round beyond the limit.
    pub fn take(&mut self, inbox: &Inbox, action: Move) -> Mail
        requires allowed { first_fault (tests self.old inbox.now action) ≡ None }
        requires rounds { (is_enter action && nat_lt MAX_ROUNDS (self.old.standing.round + 1)) ≡ false }
        ensures { IsTurn (row self.old inbox.now action) self.old self.new result }
    {
        match action {
            Move::Enter => self.take_enter(),
            Move::Choose(from) => self.take_choose(inbox, from),
            Move::Adopt => self.take_adopt(inbox),
            Move::Suspect => self.take_suspect(inbox),
            Move::Conclude => self.take_conclude(inbox),
        }
    }

    #[tactic(auto, unfolding(ct_model::specs::Phases::enter))]
    pub(super) fn take_enter(&mut self) -> Mail
        requires allowed { first_fault (enter_tests self.old) ≡ None }
        requires rounds { self.old.standing.round < MAX_ROUNDS }
        ensures { IsTurn (enter_row self.old) self.old self.new result }
    {
        let round = self.round + 1;
        let coordinator = self.group.coordinator(round);
        let phase = self.first_phase(round);
        self.round = round;
        self.phase = phase;
        let wire = Wire::Est {
            instance: self.instance,
            round,
            from: self.me,
            value: self.estimate,
            ts: self.ts,
        };
        Mail::One(coordinator, wire)
    }

    #[tactic(auto, unfolding(ct_model::specs::Phases::choose))]
    pub(super) fn take_choose(&mut self, inbox: &Inbox, from: Member) -> Mail
        requires { first_fault (tests self.old inbox.now (Choose from)) ≡ None }
        ensures { IsTurn (row self.old inbox.now (Choose from)) self.old self.new result }
    {
        match inbox.estimate(self.round, from) {
            Some(value) => {
                self.estimate = value;
                self.phase = Phase::Wait;
                Mail::All(Wire::Prop {
                    instance: self.instance,
                    round: self.round,
                    value,
                })
            }
            None => unreachable!(),
        }
    }

    #[tactic(auto, unfolding(ct_model::specs::Phases::adopt))]
    pub(super) fn take_adopt(&mut self, inbox: &Inbox) -> Mail
        requires { first_fault (tests self.old inbox.now Adopt) ≡ None }
        ensures { IsTurn (row self.old inbox.now Adopt) self.old self.new result }
    {
        match inbox.proposal(self.round) {
            Some(value) => {
                let coordinator = self.group.coordinator(self.round);
                let phase = self.replied_phase();
                self.estimate = value;
                self.ts = self.round;
                self.phase = phase;
                let wire = Wire::Ack {
                    instance: self.instance,
                    round: self.round,
                    from: self.me,
                };
                Mail::One(coordinator, wire)
            }
            None => unreachable!(),
        }
    }

    #[tactic(auto, unfolding(ct_model::specs::Phases::suspect))]
    pub(super) fn take_suspect(&mut self, inbox: &Inbox) -> Mail
        requires { first_fault (tests self.old inbox.now Suspect) ≡ None }
        ensures { IsTurn (row self.old inbox.now Suspect) self.old self.new result }
    {
        let coordinator = self.group.coordinator(self.round);
        self.phase = self.replied_phase();
        let wire = Wire::Nack {
            instance: self.instance,
            round: self.round,
            from: self.me,
        };
        Mail::One(coordinator, wire)
    }

    #[tactic(auto, unfolding(ct_model::specs::Phases::conclude))]
    pub(super) fn take_conclude(&mut self, inbox: &Inbox) -> Mail
        requires { first_fault (tests self.old inbox.now Conclude) ≡ None }
        ensures { IsTurn (row self.old inbox.now Conclude) self.old self.new result }
    {
        self.phase = Phase::Rest;
        if self.is_acked(inbox) {
            Mail::All(Wire::Dec {
                instance: self.instance,
                round: self.round,
                value: self.estimate,
            })
        } else {
            Mail::Nobody
        }
    }
}
