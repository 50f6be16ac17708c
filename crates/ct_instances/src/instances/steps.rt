//! The steps of the open instance. No step takes memory, and a refused one changes nothing.

ghost use Rattle.std.specs.Prelude.{◌≡◌, ◌<◌, false, Some, None, IfOk, IfSome, OnErr};
ghost use Rattle.std.specs.Result.{result_err};
ghost use Rattle.ct_model.specs.declared.moves.Move.TheVariants.{Enter, Choose, Adopt, Suspect, Conclude};
ghost use Rattle.ct_model.specs.Test.{first_fault};
ghost use Rattle.ct_instances.specs.Steps.{faults, taken, passes_rounds};

use super::Instances;
use ct_model::Move;
use ct_names::{MAX_ROUNDS, Member, Refusal};
use ct_rounds::{Mail, find, index_in_order};

impl Instances {
    /// Takes a step that `fault` allows, and that begins no round beyond the limit.
    pub fn take(&mut self, action: Move) -> Mail
        requires allowed { first_fault (faults self.old action) ≡ None }
        requires rounds { passes_rounds self.old action ≡ false }
        ensures { taken self.old action ≡ Some (record { after = self.new; mail = result }) }
    {
        match &mut self.part {
            None => unreachable!(),
            Some(consensus) => match find(&self.entries, &self.last, index_in_order(self.last)) {
                None => unreachable!(),
                Some(entry) => consensus.take(&entry.inbox, action),
            },
        }
    }

    /// The next round begins: its coordinator gets the estimate. Refused by `Idle`, `WrongPhase`, `Decided`.
    pub fn enter(&mut self) -> Result<Mail, Refusal>
        requires { IfSome self.old.part (λ c. c.standing.round < MAX_ROUNDS) }
        ensures fault { result_err result ≡ first_fault (faults self.old Enter) }
        ensures turn { IfOk result (λ mail. taken self.old Enter ≡ Some (record { after = self.new; mail = mail })) }
        ensures kept { OnErr result (self.new ≡ self.old) }
    {
        self.try_take(Move::Enter)
    }

    /// A majority was heard, and nobody with a larger ts than `from`: the coordinator proposes its value.
    /// Refused by `Idle`, `WrongPhase`, `TooFew`, `NotLargest`.
    pub fn choose(&mut self, from: Member) -> Result<Mail, Refusal>
        ensures fault { result_err result ≡ first_fault (faults self.old (Choose from)) }
        ensures turn { IfOk result (λ mail. taken self.old (Choose from) ≡ Some (record { after = self.new; mail = mail })) }
        ensures kept { OnErr result (self.new ≡ self.old) }
    {
        self.try_take(Move::Choose(from))
    }

    /// The coordinator's proposal came: the member takes it over, and acks it. Refused by `Idle`, `WrongPhase`,
    /// `NoProposal`.
    pub fn adopt(&mut self) -> Result<Mail, Refusal>
        ensures fault { result_err result ≡ first_fault (faults self.old Adopt) }
        ensures turn { IfOk result (λ mail. taken self.old Adopt ≡ Some (record { after = self.new; mail = mail })) }
        ensures kept { OnErr result (self.new ≡ self.old) }
    {
        self.try_take(Move::Adopt)
    }

    /// No proposal came and the coordinator is taken for crashed: it gets a nack. Refused by `Idle`, `WrongPhase`,
    /// `HasProposal`.
    pub fn suspect(&mut self) -> Result<Mail, Refusal>
        ensures fault { result_err result ≡ first_fault (faults self.old Suspect) }
        ensures turn { IfOk result (λ mail. taken self.old Suspect ≡ Some (record { after = self.new; mail = mail })) }
        ensures kept { OnErr result (self.new ≡ self.old) }
    {
        self.try_take(Move::Suspect)
    }

    /// A majority replied and the round is over: where a majority acked, the estimate is the decision. Refused by
    /// `Idle`, `WrongPhase`, `TooFew`.
    pub fn conclude(&mut self) -> Result<Mail, Refusal>
        ensures fault { result_err result ≡ first_fault (faults self.old Conclude) }
        ensures turn { IfOk result (λ mail. taken self.old Conclude ≡ Some (record { after = self.new; mail = mail })) }
        ensures kept { OnErr result (self.new ≡ self.old) }
    {
        self.try_take(Move::Conclude)
    }

    // Takes the step where it is allowed.
    fn try_take(&mut self, action: Move) -> Result<Mail, Refusal>
        requires { passes_rounds self.old action ≡ false }
        ensures fault { result_err result ≡ first_fault (faults self.old action) }
        ensures turn { IfOk result (λ mail. taken self.old action ≡ Some (record { after = self.new; mail = mail })) }
        ensures kept { OnErr result (self.new ≡ self.old) }
    {
        match self.fault(action) {
            Some(refusal) => Err(refusal),
            None => Ok(self.take(action)),
        }
    }
}
