//! Lines that would send what others wait for.

ghost use Rattle.std.specs.Prelude.{◌≡◌, IfSome, true};
ghost use Rattle.ct_merge.specs.Senders.{IsSender, IsSendingLine};

use crate::full_name::FullName;
use crate::log_act::LogAct;
use crate::log_line::LogLine;
use crate::progress::MEMBERS;
use ct_grammar::Carried;
use ct_names::{Group, Instance, Round};

// Where a member is behind some lines of its log, as the acts alone say it.
#[derive(Clone, Copy, Drop)]
struct Trace {
    submitted: u32,
    instance: Instance,
    round: Round,
    // Who sent it an ack of the round that is asked for.
    acks: [bool; MEMBERS],
}

/// The place in the log of the first line behind so many that would send an envelope of this name, as far as the acts of the log say it.
pub(crate) fn sending_line(
    group: Group,
    log: &[LogLine],
    count: usize,
    name: FullName,
) -> Option<usize>
    ensures { IfSome result (λ place. IsSendingLine log.now count place name.carried) }
{
    let mut trace = Trace {
        submitted: 0,
        instance: 0,
        round: 0,
        acks: [false; MEMBERS],
    };
    for place in 0..log.len() {
        let act = log[place].act;
        if count <= place && trace.sends(group, act, name) {
            return Some(place);
        }
        trace = trace.with(act, name.carried);
    }
    None
}

impl Trace {
    // Whether the act sends an envelope of this name.
    fn sends(&self, group: Group, act: LogAct, name: FullName) -> bool
        ensures { result ≡ true → IsSender act name.carried }
    {
        match (act, name.carried) {
            (LogAct::Submit(_), Carried::Data(origin, number)) => {
                origin == name.from && self.submitted.saturating_add(1) == number
            }
            (LogAct::Receive(got), Carried::Data(origin, _)) => {
                origin != name.from && got.carried == name.carried
            }
            (LogAct::Enter, Carried::Est(instance, round)) => {
                self.instance == instance && self.round.saturating_add(1) == round
            }
            (LogAct::Choose(_), Carried::Prop(instance, round)) => self.is_in(instance, round),
            (LogAct::Adopt, Carried::Ack(instance, round)) => self.is_in(instance, round),
            (LogAct::Suspect, Carried::Nack(instance, round)) => self.is_in(instance, round),
            (LogAct::Conclude, Carried::Dec(instance, round)) => {
                group.coordinator(round) == name.from
                    && self.is_in(instance, round)
                    && self.is_acked(group)
            }
            (LogAct::Receive(got), Carried::Dec(_, round)) => {
                group.coordinator(round) != name.from && got.carried == name.carried
            }
            _ => false,
        }
    }

    fn is_in(&self, instance: Instance, round: Round) -> bool {
        self.instance == instance && self.round == round
    }

    // Whether a majority sent it an ack.
    fn is_acked(&self, group: Group) -> bool {
        let count = self.acks.iter().filter(|acked| **acked).count();
        usize::from(group.majority()) <= count
    }

    // Behind this act too; acks are those of the round of this decision.
    fn with(self, act: LogAct, asked: Carried) -> Trace {
        match act {
            LogAct::Submit(_) => Trace {
                submitted: self.submitted.saturating_add(1),
                ..self
            },
            LogAct::Begin | LogAct::Follow => Trace {
                instance: self.instance.saturating_add(1),
                round: 0,
                ..self
            },
            LogAct::Enter => Trace {
                round: self.round.saturating_add(1),
                ..self
            },
            LogAct::Receive(name) => self.with_receipt(name, asked),
            _ => self,
        }
    }

    fn with_receipt(self, name: FullName, asked: Carried) -> Trace {
        let mut trace = self;
        if let (Carried::Ack(instance, round), Carried::Dec(k, r)) = (name.carried, asked) {
            let sender = usize::from(name.from).saturating_sub(1);
            if let Some(acked) = trace.acks.get_mut(sender) {
                *acked = *acked || (instance == k && round == r);
            }
        }
        trace
    }
}
