//! What members did behind the ends of their logs.

use crate::receipts::Receipts;
use crate::stated::{command_in, first_beside, has, names, ts_in};
use ct_grammar::{Carried, Name, Statement};
use ct_merge::{FullName, LogAct, Merger, may_come, name_of, submitted};
use ct_model::Step;
use ct_names::{Command, Instance, Member, Round, Serial};
use ct_world::{Wire, World};

// Over how many members, one for the other, what is awaited is followed at most.
const MAX_LINKS: u32 = 64;

// The command of a message that nobody received: any would do.
const ANY: Command = Command::Add(0, 0);

/// How many rounds an estimate is looked for in.
pub(crate) const ROUNDS: Round = 16;

/// An envelope that a member awaits.
#[derive(Clone, Copy)]
pub(crate) struct Awaited {
    pub from: Member,
    pub to: Member,
    pub carried: Carried,
}

/// What a member did next, so that it comes to send an envelope.
#[derive(Clone, Copy)]
pub(crate) enum Next {
    /// This.
    Did(LogAct),
    /// It received this, which was not sent yet.
    Awaited(Awaited),
    /// It isn't known.
    Unknown,
}

/// Logs that stand, and what they say that was received.
#[derive(Clone, Copy)]
pub(crate) struct Ends<'a> {
    pub merger: &'a Merger,
    pub receipts: &'a Receipts,
}

impl<'a> Ends<'a> {
    /// The world behind which logs stand.
    pub(crate) fn world(&self) -> &World {
        self.merger.progress().stage().world()
    }

    /// The coordinator of the round.
    pub(crate) fn coordinator(&self, round: Round) -> Member {
        self.world().group().coordinator(round)
    }

    /// What a member did behind the end of its log, by which that comes nearer to be sent which the next line of another log awaits.
    pub(crate) fn next(&self) -> Option<(Member, LogAct)> {
        for i in 0..self.world().group().n() {
            if let Some(awaited) = self.awaited_by(i + 1) {
                if let Some(found) = self.toward(awaited) {
                    return Some(found);
                }
            }
        }
        None
    }

    // What the next line of the member's log receives.
    fn awaited_by(&self, member: Member) -> Option<Awaited> {
        let line = self
            .merger
            .log(member)
            .get(self.merger.progress().count(member))?;
        match line.act {
            LogAct::Receive(name) => Some(Awaited {
                from: name.from,
                to: member,
                carried: name.carried,
            }),
            _ => None,
        }
    }

    // What a member did by which this comes nearer to be sent.
    fn toward(&self, awaited: Awaited) -> Option<(Member, LogAct)> {
        let mut awaited = awaited;
        for _ in 0..MAX_LINKS {
            if !self.is_lost(awaited) {
                return None;
            }
            match self.next_of(awaited) {
                Next::Did(act) => return Some((awaited.from, act)),
                Next::Awaited(before) => awaited = before,
                Next::Unknown => return None,
            }
        }
        None
    }

    /// Whether the log of the sender has ended, and the envelope may still come.
    pub(crate) fn is_lost(&self, awaited: Awaited) -> bool {
        let Awaited { from, to, carried } = awaited;
        self.merger.log(from).len() <= self.merger.progress().count(from)
            && may_come(self.world(), to, FullName { carried, from })
    }

    // What the sender did next.
    fn next_of(&self, awaited: Awaited) -> Next {
        let Awaited { from, carried, .. } = awaited;
        match carried {
            Carried::Data(origin, number) => self.next_to_pass(from, Name { origin, number }),
            Carried::Dec(instance, round) if self.coordinator(round) != from => {
                self.decided_by(from, instance, round)
            }
            Carried::Est(instance, _)
            | Carried::Prop(instance, _)
            | Carried::Ack(instance, _)
            | Carried::Nack(instance, _)
            | Carried::Dec(instance, _) => self.next_in(from, instance),
        }
    }

    // ---- messages

    // What the member did to send the message: it submitted its own, and received others; those that its next proposal leaves out
    // behind that.
    fn next_to_pass(&self, from: Member, message: Name) -> Next {
        if message.origin == from {
            return self.submission(from);
        }
        if let Some(instance) = self.unbegun_without(from, message) {
            if let Next::Did(act) = self.beginning(from, instance) {
                return Next::Did(act);
            }
        }
        let Name { origin, number } = message;
        self.brought(from, Carried::Data(origin, number), origin)
    }

    // Its next message is submitted, with the command that is stated where it is received; with any one where nobody received it.
    fn submission(&self, from: Member) -> Next {
        let before = u32::try_from(submitted(self.world(), from)).unwrap_or(u32::MAX);
        let carried = Carried::Data(from, before.saturating_add(1));
        let mut is_received = false;
        let n = self.world().group().n();
        for i in 0..n {
            for j in 0..n {
                let name = FullName {
                    carried,
                    from: j + 1,
                };
                is_received = is_received || self.receipts.has(i + 1, name);
                let said = self.receipts.said(self.merger, i + 1, name);
                if let Some(command) = said.and_then(command_in) {
                    return Next::Did(LogAct::Submit(command));
                }
            }
        }
        if is_received {
            Next::Unknown
        } else {
            Next::Did(LogAct::Submit(ANY))
        }
    }

    /// It received this; where that was not sent to it, the origin sent it.
    pub(crate) fn brought(&self, to: Member, carried: Carried, origin: Member) -> Next {
        if let Some(name) = self.waiting(to, carried) {
            return Next::Did(LogAct::Receive(name));
        }
        match carried {
            Carried::Data(from, _) if from == to => self.submission(to),
            _ if origin == to => Next::Unknown,
            _ => Next::Awaited(Awaited {
                from: origin,
                to,
                carried,
            }),
        }
    }

    /// The serial of the envelope of this name, where that waits at the member.
    pub(crate) fn waits(&self, member: Member, name: FullName) -> Option<Serial> {
        let serial = self.merger.progress().serial(member, name)?;
        match self.world().enabled(&Step::Receive(member, serial)) {
            Ok(()) => Some(serial),
            Err(_) => None,
        }
    }

    /// It did this, where that is allowed.
    pub(crate) fn allowed(&self, step: Step, act: LogAct) -> Next {
        match self.world().enabled(&step) {
            Ok(()) => Next::Did(act),
            Err(_) => Next::Unknown,
        }
    }

    // ---- instances

    // What the member did next to take part in the instance.
    fn next_in(&self, from: Member, instance: Instance) -> Next {
        match self.world().instance(from) {
            None => Next::Unknown,
            Some((last, true)) => {
                if last >= instance || self.is_behind(from, last) {
                    self.next_in_round(from, last)
                } else {
                    self.closing(from, last, Step::Deliver(from), LogAct::Deliver)
                }
            }
            Some((last, false)) => {
                let next = last.saturating_add(1);
                if next >= instance || self.receipts.stage(from, next).is_some() {
                    self.beginning(from, next)
                } else {
                    self.closing(from, next, Step::Follow(from), LogAct::Follow)
                }
            }
        }
    }

    // It received the decision that the round's coordinator made, behind what others received of it in the instance.
    fn decided_by(&self, from: Member, instance: Instance, round: Round) -> Next {
        if self.is_before(from, instance) {
            if let Next::Did(act) = self.next_in(from, instance) {
                return Next::Did(act);
            }
        }
        self.brought(from, Carried::Dec(instance, round), self.coordinator(round))
    }

    // Whether others received something of the member in the instance that it has yet to send.
    fn is_before(&self, from: Member, instance: Instance) -> bool {
        match self.world().instance(from) {
            None => false,
            Some((last, is_open)) => {
                last < instance && self.receipts.stage(from, instance).is_some()
                    || last == instance && is_open && self.is_behind(from, instance)
            }
        }
    }

    // It received the instance's decision, and closed the instance by this step; or it took part further.
    fn closing(&self, from: Member, instance: Instance, step: Step, act: LogAct) -> Next {
        if self.world().enabled(&step).is_ok() {
            return Next::Did(act);
        }
        if let Some(name) = self.waiting_decision(from, instance) {
            return Next::Did(LogAct::Receive(name));
        }
        if let Some(round) = self.receipts.decided(instance) {
            let coordinator = self.coordinator(round);
            if coordinator != from {
                return self.brought(from, Carried::Dec(instance, round), coordinator);
            }
        }
        match act {
            LogAct::Deliver => self.next_in_round(from, instance),
            _ => self.beginning(from, instance),
        }
    }

    // A decision of the instance that waits at the member.
    fn waiting_decision(&self, member: Member, instance: Instance) -> Option<FullName> {
        for serial in self.world().waiting(member)? {
            if self.brings_decision(*serial, instance) {
                return name_of(self.merger.progress().stage(), *serial);
            }
        }
        None
    }

    fn brings_decision(&self, serial: Serial, instance: Instance) -> bool {
        match self.world().letter(serial) {
            Some(letter) => match letter.wire {
                Wire::Dec { instance: of, .. } => of == instance,
                _ => false,
            },
            None => false,
        }
    }

    // It began the instance, with the messages that it proposed as others received them.
    fn beginning(&self, from: Member, instance: Instance) -> Next {
        let received = self.world().received(from).unwrap_or(&[]);
        match self.proposal(from, instance) {
            Some(said) => match first_beside(said, received) {
                Some(Name { origin, number }) => {
                    self.brought(from, Carried::Data(origin, number), origin)
                }
                None => self.allowed(Step::Begin(from), LogAct::Begin),
            },
            None => match self.world().enabled(&Step::Begin(from)) {
                Ok(()) => Next::Did(LogAct::Begin),
                Err(_) => self.any_message(from),
            },
        }
    }

    // It received a message that waits at it.
    fn any_message(&self, member: Member) -> Next {
        let received = self.world().received(member).unwrap_or(&[]);
        for serial in self.world().waiting(member).unwrap_or(&[]) {
            if let Some(name) = name_of(self.merger.progress().stage(), *serial) {
                if let Carried::Data(origin, number) = name.carried {
                    if !has(received, Name { origin, number }) {
                        return Next::Did(LogAct::Receive(name));
                    }
                }
            }
        }
        Next::Unknown
    }

    // What is stated of the value that the member proposed in the instance, where others received that as its estimate; or else as what
    // it chose of its own first estimates.
    fn proposal(&self, from: Member, instance: Instance) -> Option<&'a Statement> {
        for before in 0..ROUNDS {
            let round = before + 1;
            let name = FullName {
                carried: Carried::Est(instance, round),
                from,
            };
            if let Some(said) = self
                .receipts
                .said(self.merger, self.coordinator(round), name)
            {
                return if ts_in(said) == Some(0) {
                    Some(said)
                } else {
                    None
                };
            }
            if self.coordinator(round) == from {
                return self.proposed(from, instance, round);
            }
        }
        None
    }

    // The next instance of the member, where it has yet to begin that with a value that leaves the message out.
    fn unbegun_without(&self, from: Member, message: Name) -> Option<Instance> {
        let (last, is_open) = self.world().instance(from)?;
        let next = last.saturating_add(1);
        let said = self.proposal(from, next)?;
        if is_open || names(said, message) {
            None
        } else {
            Some(next)
        }
    }
}
