//! How far logs were taken.

ghost use Rattle.std.specs.Prelude.{◌≡◌, ◌≢◌, ◌<◌, ◌≤◌, ℕ, [], None, true, IfErr, IfOk, IfSome, OnOk, length, slice_index};
ghost use Rattle.ct_names.specs.Group.{is_member};
ghost use Rattle.ct_merge.specs.Logs.{log_of};
ghost use Rattle.ct_merge.specs.Merging.{count_of, IsLater, IsReady, IsTakenFrom};
ghost use Rattle.ct_merge.specs.Names.{IsSentAs};
ghost use Rattle.ct_merge.specs.Stops.{halted_at, IsHalt};
ghost use Rattle.ct_merge.specs.Waits.{IsUnsent, WaitsAt};
ghost use Rattle.ct_world.specs.Setup.{record_of};

use crate::full_name::FullName;
use crate::log_line::LogLine;
use crate::own_fault::OwnFault;
use crate::refusals::end_of;
use crate::taker::Taker;
use crate::verdict::{Culprit, Why};
use ct_names::{MAX_MEMBERS, Member, Serial};
use ct_play::{LineFault, Stage};
use ct_world::{Setup, World};
use std::alloc::Global;
use std::marker::Model;

// A number for each member that a group can have.
pub(crate) const MEMBERS: usize = MAX_MEMBERS as usize;

/// A world into which the lines of logs are taken, and how many lines of each member's log were taken.
#[derive(Drop)]
pub struct Progress {
    taker: Taker,
    counts: [usize; MEMBERS],
    // Whose log was tried last.
    last: Member,
}

// Contracts see the record, the numbers of lines, and whose log was tried last.
impl Model for Progress {
    ghost use Rattle.ct_merge.specs.Merging.{Taken};

    ghost Value = { Taken };

    ghost view = { λ p. record { rehearsal = p.taker; counts = p.counts; last = p.last } };
}

impl Progress {
    // Nothing was taken. Only memory can be refused.
    pub(crate) fn new(alloc: Global, setup: Setup) -> Result<Progress, LineFault>
        ensures record { IfOk result (λ progress. progress.rehearsal ≡ record_of setup []) }
        ensures err { IfErr result (λ fault. fault ≡ LineFault.OutOfMemory) }
        ensures counts { IfOk result (λ progress. (i : ℕ) → slice_index progress.counts i ≡ 0) }
    {
        Ok(Progress {
            taker: Taker::new(alloc, setup)?,
            counts: [0; MEMBERS],
            last: 1,
        })
    }

    /// What the lines led to.
    pub fn stage(&self) -> &Stage
        ensures { result.now.rehearsal ≡ self.now.rehearsal }
    {
        self.taker.stage()
    }

    /// The serial of the envelope of this name that was sent to the member.
    pub fn serial(&self, member: Member, name: FullName) -> Option<Serial>
        ensures sent { IfSome result (IsSentAs self.now.rehearsal member name) }
        ensures none { result ≡ None → IsUnsent self.now.rehearsal member name }
    {
        self.taker.serial(member, name)
    }

    /// The serial of what the next line of the member's log receives; of another line any number. None: the log is over, or that was not
    /// sent.
    pub(crate) fn ready(&self, logs: &[Vec<LogLine>], member: Member) -> Option<Serial>
        ensures ready { IfSome result
            (IsReady self.now.rehearsal member (log_of logs.now member) (count_of self.now.counts member)) }
        ensures waits { result ≡ None → WaitsAt logs.now self.now member }
    {
        self.taker
            .find(member, log_of(logs, member), self.count(member))
    }

    // The world alone.
    pub(crate) fn into_world(self) -> World
        ensures { result.rehearsal ≡ self.rehearsal }
    {
        self.taker.into_world()
    }

    // Takes lines of the logs as far as they go, of each up to the one of these lines that is its own. A fault is that of the next line of
    // the log that was tried last.
    #[tactic(auto, using(crate::proofs::Halting::halted_on))]
    pub(crate) fn run(&mut self, logs: &[Vec<LogLine>], refused: &[Culprit]) -> Result<(), OwnFault>
        requires { IsTakenFrom logs.now self.old }
        ensures taken { OnOk result (IsTakenFrom logs.now self.new) }
        ensures later { OnOk result (IsLater self.old.rehearsal self.new.rehearsal) }
        ensures halt { IfErr result (IsHalt self.old.rehearsal logs.now self.new) }
    {
        // Each round but the last takes a line.
        for round in 0..=lines_of(logs) {
            let _ = round;
            if !self.round(logs, refused)? {
                return Ok(());
            }
        }
        Ok(())
    }

    // Takes lines of each log in its turn. Whether there were some.
    #[tactic(auto, using(crate::proofs::Halting::halted_on))]
    fn round(&mut self, logs: &[Vec<LogLine>], refused: &[Culprit]) -> Result<bool, OwnFault>
        requires { IsTakenFrom logs.now self.old }
        ensures taken { OnOk result (IsTakenFrom logs.now self.new) }
        ensures later { OnOk result (IsLater self.old.rehearsal self.new.rehearsal) }
        ensures halt { IfErr result (IsHalt self.old.rehearsal logs.now self.new) }
    {
        let mut some = false;
        for i in 0..self.stage().world().group().n() {
            if self.advance(i + 1, logs, end_of(refused, i + 1))? {
                some = true;
            }
        }
        Ok(some)
    }

    // Takes lines of the member's log as far as they go, up to this end. Whether there were some.
    #[tactic(auto, using(crate::proofs::Advancing::advanced, crate::proofs::Halting::halted))]
    fn advance(
        &mut self,
        member: Member,
        logs: &[Vec<LogLine>],
        end: usize,
    ) -> Result<bool, OwnFault>
        requires member { is_member self.old.rehearsal.setting.members member ≡ true }
        requires few { member ≤ MAX_MEMBERS }
        requires taken { IsTakenFrom logs.now self.old }
        ensures taken { OnOk result (IsTakenFrom logs.now self.new) }
        ensures later { OnOk result (IsLater self.old.rehearsal self.new.rehearsal) }
        ensures halt { IfErr result (IsHalt self.old.rehearsal logs.now self.new) }
    {
        let start = self.count(member);
        let mut count = start;
        self.last = member;
        let ended = self
            .taker
            .take_on(member, log_of(logs, member), end, &mut count);
        self.note(member, count);
        ended?;
        Ok(count > start)
    }

    // Takes the next line of the member's log, by the serial of what it receives.
    #[tactic(auto, using(crate::proofs::Advancing::advanced, crate::proofs::Halting::halted))]
    pub(crate) fn take_next(
        &mut self,
        logs: &[Vec<LogLine>],
        member: Member,
        serial: Serial,
    ) -> Result<(), OwnFault>
        requires member { is_member self.old.rehearsal.setting.members member ≡ true }
        requires taken { IsTakenFrom logs.now self.old }
        requires ready { IsReady self.old.rehearsal member (log_of logs.now member) (count_of self.old.counts member) serial }
        ensures taken { OnOk result (IsTakenFrom logs.now self.new) }
        ensures later { OnOk result (IsLater self.old.rehearsal self.new.rehearsal) }
        ensures more { OnOk result (length self.old.rehearsal.steps < length self.new.rehearsal.steps) }
        ensures halt { IfErr result (IsHalt self.old.rehearsal logs.now self.new) }
    {
        // For its clause: a group has no more members than there are numbers.
        let _ = self.stage().world().group().n();
        let mut count = self.count(member);
        self.last = member;
        let ended = self
            .taker
            .take(member, log_of(logs, member), serial, &mut count);
        self.note(member, count);
        ended
    }

    // Notes that so many lines of the member's log were taken.
    fn note(&mut self, member: Member, count: usize)
        requires some { 1 ≤ member }
        requires few { member ≤ MAX_MEMBERS }
        ensures record { self.new.rehearsal ≡ self.old.rehearsal }
        ensures last { self.new.last ≡ self.old.last }
        ensures here { count_of self.new.counts member ≡ count }
        ensures elsewhere { (q : ℕ) → 1 ≤ q → q ≢ member → count_of self.new.counts q ≡ count_of self.old.counts q }
    {
        self.counts[usize::from(member) - 1] = count;
    }

    // The line of the log that was tried last, which has this fault.
    pub(crate) fn halted(&self, fault: OwnFault) -> Culprit
        ensures { result ≡ halted_at self.now fault }
    {
        Culprit {
            member: self.last,
            place: self.count(self.last),
            why: Why::Fault(fault),
            run: None,
        }
    }

    /// How many lines of the member's log were taken.
    pub fn count(&self, member: Member) -> usize
        ensures { result ≡ count_of self.now.counts member }
    {
        match self.counts.get(usize::from(member).saturating_sub(1)) {
            Some(count) => *count,
            None => 0,
        }
    }
}

/// The log of the member; the first one is member 1's.
pub(crate) fn log_of(logs: &[Vec<LogLine>], member: Member) -> &[LogLine]
    ensures { result.now ≡ log_of logs.now member }
{
    match logs.get(usize::from(member).saturating_sub(1)) {
        Some(log) => log,
        None => &[],
    }
}

// How many lines the logs have; of more than there can be, the most.
fn lines_of(logs: &[Vec<LogLine>]) -> usize {
    let mut count: usize = 0;
    for log in logs {
        count = count.saturating_add(log.len());
    }
    count
}
