//! The rounds of members behind the ends of their logs.

use crate::ends::{Awaited, Ends, Next, ROUNDS};
use crate::receipts::{ENDED, ENTERED, PROPOSED, REPLIED, stage_of};
use crate::stated::ts_in;
use ct_grammar::{Carried, Statement};
use ct_merge::{FullName, LogAct};
use ct_model::{Phase, Step};
use ct_names::{Instance, Member, Round, Serial};
use ct_play::{is_stated, outcome};
use ct_world::Wire;

impl<'a> Ends<'a> {
    /// Whether others received something of the member in its open instance that it has yet to send.
    pub(crate) fn is_behind(&self, from: Member, instance: Instance) -> bool {
        let Some((round, phase)) = self.world().round(from) else {
            return false;
        };
        let done = match phase {
            Phase::Gather => ENTERED,
            Phase::Wait => PROPOSED,
            Phase::Tally => REPLIED,
            Phase::Rest => ENDED,
        };
        stage_of(round, done) < self.receipts.stage(from, instance).unwrap_or(0)
    }

    /// What the member did next in its open instance.
    pub(crate) fn next_in_round(&self, from: Member, instance: Instance) -> Next {
        match self.world().round(from) {
            None => Next::Unknown,
            Some((_, Phase::Rest)) => self.allowed(Step::Enter(from), LogAct::Enter),
            Some((round, Phase::Gather)) => self.choice(from, instance, round),
            Some((round, Phase::Wait)) => self.reply(from, instance, round),
            Some((round, Phase::Tally)) => self.conclusion(from, instance, round),
        }
    }

    // ---- choices

    // It chose an estimate of the value that others received as its proposal, or heard one more.
    fn choice(&self, from: Member, instance: Instance, round: Round) -> Next {
        let said = self.proposed(from, instance, round);
        for i in 0..self.world().group().n() {
            let step = Step::Choose(from, i + 1);
            if self.world().enabled(&step).is_ok() && self.fits(step, said) {
                return Next::Did(LogAct::Choose(i + 1));
            }
        }
        self.estimate(from, instance, round, said)
    }

    /// What is stated of its proposal.
    pub(crate) fn proposed(
        &self,
        from: Member,
        instance: Instance,
        round: Round,
    ) -> Option<&'a Statement> {
        let name = FullName {
            carried: Carried::Prop(instance, round),
            from,
        };
        for i in 0..self.world().group().n() {
            if let Some(said) = self.receipts.said(self.merger, i + 1, name) {
                return Some(said);
            }
        }
        None
    }

    // Whether the step comes to what is stated, if something is.
    fn fits(&self, step: Step, said: Option<&Statement>) -> bool {
        match said {
            None => true,
            Some(said) => is_stated(outcome(self.world(), step), said),
        }
    }

    // It heard an estimate that waits at it: of the value, if there is one, else with the least ts; or one that was not sent yet.
    fn estimate(
        &self,
        from: Member,
        instance: Instance,
        round: Round,
        said: Option<&Statement>,
    ) -> Next {
        let carried = Carried::Est(instance, round);
        let mut least: Option<(Round, FullName)> = None;
        for i in 0..self.world().group().n() {
            let name = FullName {
                carried,
                from: i + 1,
            };
            if let Some(serial) = self.waits(from, name) {
                if said.is_some() && self.fits(Step::Receive(from, serial), said) {
                    return Next::Did(LogAct::Receive(name));
                }
                let ts = self.ts(serial);
                if least.is_none_or(|(other, _)| ts < other) {
                    least = Some((ts, name));
                }
            }
        }
        match least {
            Some((_, name)) => Next::Did(LogAct::Receive(name)),
            None => self.lost(from, carried),
        }
    }

    // The ts of the estimate of the serial.
    fn ts(&self, serial: Serial) -> Round {
        match self.world().letter(serial) {
            Some(letter) => match letter.wire {
                Wire::Est { ts, .. } => ts,
                _ => 0,
            },
            None => 0,
        }
    }

    // A member whose log has ended sent it this.
    fn lost(&self, to: Member, carried: Carried) -> Next {
        for i in 0..self.world().group().n() {
            let awaited = Awaited {
                from: i + 1,
                to,
                carried,
            };
            if i + 1 != to && self.is_lost(awaited) {
                return Next::Awaited(awaited);
            }
        }
        Next::Unknown
    }

    // ---- replies

    // It took the proposal over, or suspected the coordinator, as others received it.
    fn reply(&self, from: Member, instance: Instance, round: Round) -> Next {
        if self.world().enabled(&Step::Adopt(from)).is_ok() {
            return Next::Did(LogAct::Adopt);
        }
        let coordinator = self.coordinator(round);
        let proposal = Carried::Prop(instance, round);
        match self.took_over(from, instance, round) {
            Some(true) => self.brought(from, proposal, coordinator),
            Some(false) => self.allowed(Step::Suspect(from), LogAct::Suspect),
            None => match self.brought(from, proposal, coordinator) {
                Next::Did(act) => Next::Did(act),
                _ => self.allowed(Step::Suspect(from), LogAct::Suspect),
            },
        }
    }

    // Whether it took the proposal over, by its reply or its next estimate; None where that isn't known.
    fn took_over(&self, from: Member, instance: Instance, round: Round) -> Option<bool> {
        let coordinator = self.coordinator(round);
        let ack = Carried::Ack(instance, round);
        let nack = Carried::Nack(instance, round);
        if self
            .receipts
            .has(coordinator, FullName { carried: ack, from })
        {
            return Some(true);
        }
        if self.receipts.has(
            coordinator,
            FullName {
                carried: nack,
                from,
            },
        ) {
            return Some(false);
        }
        for more in 1..ROUNDS {
            let later = round.saturating_add(more);
            let name = FullName {
                carried: Carried::Est(instance, later),
                from,
            };
            if let Some(said) = self
                .receipts
                .said(self.merger, self.coordinator(later), name)
            {
                let ts = ts_in(said)?;
                return if ts > round { None } else { Some(ts == round) };
            }
        }
        None
    }

    // ---- conclusions

    // It concluded, or got one more reply; where others received the round's decision, acks until a majority took the proposal over.
    fn conclusion(&self, from: Member, instance: Instance, round: Round) -> Next {
        let decides = self.is_decided(instance, round);
        if self.world().enabled(&Step::Conclude(from)).is_ok()
            && (!decides || self.is_acked(from))
        {
            return Next::Did(LogAct::Conclude);
        }
        let ack = Carried::Ack(instance, round);
        let nack = Carried::Nack(instance, round);
        if let Some(name) = self.waiting(from, ack) {
            return Next::Did(LogAct::Receive(name));
        }
        if decides {
            return self.lost(from, ack);
        }
        if let Some(name) = self.waiting(from, nack) {
            return Next::Did(LogAct::Receive(name));
        }
        match self.lost(from, nack) {
            Next::Unknown => self.lost(from, ack),
            next => next,
        }
    }

    // Whether a majority took its proposal over.
    fn is_acked(&self, from: Member) -> bool {
        match self.world().acked(from) {
            Some(members) => members.len() >= self.world().group().majority(),
            None => false,
        }
    }

    // Whether somebody received a decision of the round.
    fn is_decided(&self, instance: Instance, round: Round) -> bool {
        let n = self.world().group().n();
        for i in 0..n {
            for j in 0..n {
                let name = FullName {
                    carried: Carried::Dec(instance, round),
                    from: j + 1,
                };
                if self.receipts.has(i + 1, name) {
                    return true;
                }
            }
        }
        false
    }

    /// What carries this and waits at the member.
    pub(crate) fn waiting(&self, member: Member, carried: Carried) -> Option<FullName> {
        for i in 0..self.world().group().n() {
            let name = FullName {
                carried,
                from: i + 1,
            };
            if self.waits(member, name).is_some() {
                return Some(name);
            }
        }
        None
    }
}
