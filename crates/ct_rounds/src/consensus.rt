//! A member's part in one instance.

ghost use Rattle.std.specs.Prelude.{◌≡◌, ◌<◌, IfOk, OnErr};
ghost use Rattle.std.specs.Result.{result_err};
ghost use Rattle.ct_model.specs.declared.phase.Phase.TheVariants.{Rest};
ghost use Rattle.ct_names.specs.Group.{is_majority};
ghost use Rattle.ct_model.specs.Phases.{first_phase, replied_phase};
ghost use Rattle.ct_model.specs.declared.moves.Move.TheVariants.{Choose, Adopt, Suspect, Conclude};
ghost use Rattle.ct_model.specs.Test.{first_fault};
ghost use Rattle.ct_rounds.specs.Part.{IsTurn, row, tests, enter_row, enter_tests};

mod refusing;
mod taking;

use crate::inbox::Inbox;
use ct_model::{Mail, Phase};
use ct_names::{Group, Instance, MAX_ROUNDS, Member, MemberSet, Refusal, Round, ValueId};
use std::marker::Model;

/// A member's part in one instance (Chandra and Toueg, section 6.2). No step takes memory.
#[derive(Clone, Copy)]
pub struct Consensus {
    group: Group,
    me: Member,
    instance: Instance,
    round: Round,
    phase: Phase,
    estimate: ValueId,
    ts: Round,
}

impl Model for Consensus {
    ghost use Rattle.ct_rounds.specs.Part.{Part};

    ghost Value = { Part };

    ghost view = { λ c. record {
      members = c.group;
      me = c.me;
      instance = c.instance;
      standing =
          record { round = c.round; phase = c.phase; estimate = c.estimate; ts = c.ts };
    } };

    ghost inverse = { λ p. record {
      group = p.members;
      me = p.me;
      instance = p.instance;
      round = p.standing.round;
      phase =
          p.standing.phase;
      estimate = p.standing.estimate;
      ts = p.standing.ts;
    } };
}

impl Consensus {
    /// The member `me` opens the instance with this estimate. No round is running.
    pub fn new(group: Group, me: Member, instance: Instance, estimate: ValueId) -> Consensus
        ensures { result ≡ record {
          members = group;
          me = me;
          instance = instance;
          standing =
              record { round = 0; phase = Rest; estimate = estimate; ts = 0 };
        } }
    {
        Consensus {
            group,
            me,
            instance,
            round: 0,
            phase: Phase::Rest,
            estimate,
            ts: 0,
        }
    }

    /// The instance.
    pub fn instance(&self) -> Instance
        ensures { result ≡ self.now.instance }
    {
        self.instance
    }

    /// The round, 0 before the first.
    pub fn round(&self) -> Round
        ensures { result ≡ self.now.standing.round }
    {
        self.round
    }

    /// The phase of the round.
    pub fn phase(&self) -> Phase
        ensures { result ≡ self.now.standing.phase }
    {
        self.phase
    }

    /// The value that the member holds for the decision.
    pub fn estimate(&self) -> ValueId
        ensures { result ≡ self.now.standing.estimate }
    {
        self.estimate
    }

    /// The round whose proposal the estimate is, 0 if it is the member's own.
    pub fn ts(&self) -> Round
        ensures { result ≡ self.now.standing.ts }
    {
        self.ts
    }

    /// The next round begins: its coordinator gets the estimate. Refused as WrongPhase while a round is running.
    /// Whether the instance is decided is not tested here.
    pub fn enter(&mut self) -> Result<Mail, Refusal>
        requires { self.old.standing.round < MAX_ROUNDS }
        ensures fault { result_err result ≡ first_fault (enter_tests self.old) }
        ensures turn { IfOk result (λ mail. IsTurn (enter_row self.old) self.old self.new mail) }
        ensures kept { OnErr result (self.new ≡ self.old) }
    {
        match self.enter_fault() {
            Some(refusal) => Err(refusal),
            None => Ok(self.take_enter()),
        }
    }

    /// A majority was heard, and nobody with a larger ts than `from`: the coordinator proposes its value. Refused, in
    /// this order, as WrongPhase unless it gathers estimates, TooFew below a majority, and NotLargest.
    pub fn choose(&mut self, inbox: &Inbox, from: Member) -> Result<Mail, Refusal>
        ensures fault { result_err result ≡ first_fault (tests self.old inbox.now (Choose from)) }
        ensures turn { IfOk result (λ mail. IsTurn (row self.old inbox.now (Choose from)) self.old self.new mail) }
        ensures kept { OnErr result (self.new ≡ self.old) }
    {
        match self.choose_fault(inbox, from) {
            Some(refusal) => Err(refusal),
            None => Ok(self.take_choose(inbox, from)),
        }
    }

    /// The coordinator's proposal came: the member takes it over, and acks it. Refused as WrongPhase unless the member
    /// waits for it, and as NoProposal.
    pub fn adopt(&mut self, inbox: &Inbox) -> Result<Mail, Refusal>
        ensures fault { result_err result ≡ first_fault (tests self.old inbox.now Adopt) }
        ensures turn { IfOk result (λ mail. IsTurn (row self.old inbox.now Adopt) self.old self.new mail) }
        ensures kept { OnErr result (self.new ≡ self.old) }
    {
        match self.adopt_fault(inbox) {
            Some(refusal) => Err(refusal),
            None => Ok(self.take_adopt(inbox)),
        }
    }

    /// No proposal came and the coordinator is taken for crashed: it gets a nack. Refused as WrongPhase unless the
    /// member waits for the proposal, and as HasProposal.
    pub fn suspect(&mut self, inbox: &Inbox) -> Result<Mail, Refusal>
        ensures fault { result_err result ≡ first_fault (tests self.old inbox.now Suspect) }
        ensures turn { IfOk result (λ mail. IsTurn (row self.old inbox.now Suspect) self.old self.new mail) }
        ensures kept { OnErr result (self.new ≡ self.old) }
    {
        match self.suspect_fault(inbox) {
            Some(refusal) => Err(refusal),
            None => Ok(self.take_suspect(inbox)),
        }
    }

    /// A majority replied and the round is over: where a majority acked, the estimate is the decision. Refused as
    /// WrongPhase unless the coordinator tallies replies, and as TooFew below a majority.
    pub fn conclude(&mut self, inbox: &Inbox) -> Result<Mail, Refusal>
        ensures fault { result_err result ≡ first_fault (tests self.old inbox.now Conclude) }
        ensures turn { IfOk result (λ mail. IsTurn (row self.old inbox.now Conclude) self.old self.new mail) }
        ensures kept { OnErr result (self.new ≡ self.old) }
    {
        match self.conclude_fault(inbox) {
            Some(refusal) => Err(refusal),
            None => Ok(self.take_conclude(inbox)),
        }
    }

    fn is_majority(&self, set: MemberSet) -> bool
        ensures { result ≡ is_majority self.now.members set }
    {
        self.group.majority() <= set.len()
    }

    fn first_phase(&self, round: Round) -> Phase
        ensures { result ≡ first_phase self.now.members self.now.me round }
    {
        if self.group.coordinator(round) == self.me {
            Phase::Gather
        } else {
            Phase::Wait
        }
    }

    fn replied_phase(&self) -> Phase
        ensures { result ≡ replied_phase self.now.members self.now.me self.now.standing.round }
    {
        if self.group.coordinator(self.round) == self.me {
            Phase::Tally
        } else {
            Phase::Rest
        }
    }
}
