//! Why a step would be refused. These change nothing and take no memory.

ghost use Rattle.std.specs.Prelude.{◌≡◌};
ghost use Rattle.ct_names.specs.Group.{is_majority};
ghost use Rattle.ct_model.specs.declared.moves.Move.TheVariants.{Choose, Adopt, Suspect, Conclude};
ghost use Rattle.ct_model.specs.Test.{first_fault};
ghost use Rattle.ct_rounds.specs.Part.{got, tests, enter_tests};

use super::Consensus;
use crate::inbox::Inbox;
use ct_model::Phase;
use ct_names::{Member, Refusal};

impl Consensus {
    /// The refusal of `enter`, None where it is allowed.
    pub fn enter_fault(&self) -> Option<Refusal>
        ensures { result ≡ first_fault (enter_tests self.now) }
    {
        if self.phase != Phase::Rest {
            Some(Refusal::WrongPhase)
        } else {
            None
        }
    }

    /// The refusal of `choose`, None where it is allowed.
    pub fn choose_fault(&self, inbox: &Inbox, from: Member) -> Option<Refusal>
        ensures { result ≡ first_fault (tests self.now inbox.now (Choose from)) }
    {
        if self.phase != Phase::Gather {
            Some(Refusal::WrongPhase)
        } else if !self.is_majority(inbox.heard(self.round)) {
            Some(Refusal::TooFew)
        } else if !inbox.largest(self.round, from) {
            Some(Refusal::NotLargest)
        } else {
            None
        }
    }

    /// The refusal of `adopt`, None where it is allowed.
    pub fn adopt_fault(&self, inbox: &Inbox) -> Option<Refusal>
        ensures { result ≡ first_fault (tests self.now inbox.now Adopt) }
    {
        if self.phase != Phase::Wait {
            Some(Refusal::WrongPhase)
        } else if inbox.proposal(self.round).is_none() {
            Some(Refusal::NoProposal)
        } else {
            None
        }
    }

    /// The refusal of `suspect`, None where it is allowed.
    pub fn suspect_fault(&self, inbox: &Inbox) -> Option<Refusal>
        ensures { result ≡ first_fault (tests self.now inbox.now Suspect) }
    {
        if self.phase != Phase::Wait {
            Some(Refusal::WrongPhase)
        } else if inbox.proposal(self.round).is_some() {
            Some(Refusal::HasProposal)
        } else {
            None
        }
    }

    /// The refusal of `conclude`, None where it is allowed.
    pub fn conclude_fault(&self, inbox: &Inbox) -> Option<Refusal>
        ensures { result ≡ first_fault (tests self.now inbox.now Conclude) }
    {
        if self.phase != Phase::Tally {
            Some(Refusal::WrongPhase)
        } else if !self.is_majority(inbox.replied(self.round)) {
            Some(Refusal::TooFew)
        } else {
            None
        }
    }

    /// Whether a majority acked the round.
    pub fn is_acked(&self, inbox: &Inbox) -> bool
        ensures { result ≡ is_majority self.now.members (got inbox.now self.now).acked }
    {
        self.is_majority(inbox.acked(self.round))
    }
}
