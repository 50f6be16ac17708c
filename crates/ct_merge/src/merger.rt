//! Logs that are merged while they grow.

ghost use Rattle.std.specs.Prelude.{◌≡◌, ◌≢◌, ◌≤◌, ◌++◌, ◌∷◌, [], ℕ, true, false, IfErr, IfOk, OnErr, OnOk, All, length};
ghost use Rattle.ct_names.specs.Group.{is_member};
ghost use Rattle.ct_world.specs.Setup.{setting_of};
ghost use Rattle.ct_play.specs.Faults.{IsShort};
ghost use Rattle.ct_merge.specs.Logs.{IsMerge, log_of};
ghost use Rattle.ct_merge.specs.Merging.{IsBare, IsTakenFrom};
ghost use Rattle.ct_merge.specs.Stops.{IsCulprit};
ghost use Rattle.ct_merge.specs.Verdicts.{IfAccepted, IfRefused, IfStopped, verdict_at};
ghost use Rattle.ct_merge.specs.Waits.{HasNoMerge, NeverMerges, is_limit, is_wait};

use crate::log_line::LogLine;
use crate::merging::judge;
use crate::progress::{Progress, log_of};
use crate::verdict::{Culprit, Verdict};
use ct_names::Member;
use ct_play::LineFault;
use ct_world::Setup;
use std::alloc::{AllocError, Global};
use std::marker::Model;

/// Logs of the members of a group that are merged while they grow.
#[derive(Drop)]
pub struct Merger {
    progress: Progress,
    // Member 1's first, and one for each member.
    logs: Vec<Vec<LogLine>>,
}

// Contracts see the group and its logs as they stand.
impl Model for Merger {
    ghost use Rattle.std.specs.Prelude.{◌≡◌, length};
    ghost use Rattle.ct_merge.specs.Merging.{Growing, IsTakenFrom};

    ghost Value = { Growing };

    ghost view = { λ m. record {
      setting = m.progress.rehearsal.setting;
      cells = m.progress.rehearsal.cells;
      logs = m.logs.items;
    } };

    ghost invariant = { λ m. IsTakenFrom m.logs.items m.progress × (length m.logs.items ≡ m.progress.rehearsal.setting.members) };
}

impl Merger {
    /// No log has a line. Only memory can be refused.
    #[tactic(auto, using(crate::proofs::Advancing::nothing_taken, crate::proofs::Advancing::none_in))]
    pub fn new(alloc: Global, setup: Setup) -> Result<Merger, LineFault>
        ensures setting { IfOk result (λ m. m.setting ≡ setting_of setup) }
        ensures cells { IfOk result (λ m. m.cells ≡ setup.cells) }
        ensures empty { IfOk result (λ m. (p : ℕ) → log_of m.logs p ≡ []) }
        ensures err { IfErr result (λ fault. fault ≡ LineFault.OutOfMemory) }
    {
        let logs = no_lines(alloc, setup.group.n())?;
        let progress = Progress::new(alloc, setup)?;
        Ok(Merger { progress, logs })
    }

    /// The logs have these lines, of which none was taken. Only memory can be refused.
    #[tactic(auto, using(crate::proofs::Advancing::nothing_taken))]
    pub fn with_logs(
        alloc: Global,
        setup: Setup,
        logs: Vec<Vec<LogLine>>,
    ) -> Result<Merger, LineFault>
        requires { length logs.items ≡ setup.group }
        ensures setting { IfOk result (λ m. m.setting ≡ setting_of setup) }
        ensures cells { IfOk result (λ m. m.cells ≡ setup.cells) }
        ensures logs { IfOk result (λ m. m.logs ≡ logs.items) }
        ensures err { IfErr result (λ fault. fault ≡ LineFault.OutOfMemory) }
    {
        let progress = Progress::new(alloc, setup)?;
        Ok(Merger { progress, logs })
    }

    /// What was taken of the logs so far.
    pub fn progress(&self) -> &Progress
        ensures taken { IsTakenFrom self.now.logs result.now }
        ensures setting { result.now.rehearsal.setting ≡ self.now.setting }
        ensures cells { result.now.rehearsal.cells ≡ self.now.cells }
    {
        &self.progress
    }

    /// The log of the member.
    pub fn log(&self, member: Member) -> &[LogLine]
        ensures { result.now ≡ log_of self.now.logs member }
    {
        log_of(&self.logs, member)
    }

    /// The member's log goes on with this line.
    pub fn push(&mut self, member: Member, line: LogLine) -> Result<(), AllocError>
        requires { is_member self.old.setting.members member ≡ true }
        ensures here { OnOk result (log_of self.new.logs member ≡ log_of self.old.logs member ++ line ∷ []) }
        ensures others { (q : ℕ) → 1 ≤ q → q ≢ member → log_of self.new.logs q ≡ log_of self.old.logs q }
        ensures kept { OnErr result (log_of self.new.logs member ≡ log_of self.old.logs member) }
        ensures setting { self.new.setting ≡ self.old.setting }
        ensures cells { self.new.cells ≡ self.old.cells }
    {
        push_line(&mut self.logs, member, line)
    }

    /// Takes lines that can be taken: an envelope is received once it was sent. Else a line is told that is refused by itself, whatever
    /// lines these logs go on with, or at which a limit is in the way ([`Why::is_limit`](crate::Why::is_limit)), and the logs. How far the
    /// lines go is open; [`end`](Merger::end) takes the others.
    #[tactic(auto, using(crate::proofs::Advancing::same_group, crate::proofs::Halting::is_culprit, crate::proofs::Failing::fault_none))]
    pub fn go_on(self) -> Result<Result<Merger, (Culprit, Vec<Vec<LogLine>>)>, LineFault>
        ensures same { IfOk result (λ gone. IfOk gone (λ m. m ≡ self)) }
        ensures culprit { IfOk result (λ gone. IfErr gone (λ halt. IsCulprit self.setting self.cells self.logs halt.0)) }
        // Where no limit is in the way, no run of the group is a merge of logs that begin with these.
        ensures own { IfOk result (λ gone. IfErr gone (λ halt. is_limit halt.0.why ≡ false → NeverMerges self.setting self.logs)) }
        ensures fault { IfOk result (λ gone. IfErr gone (λ halt. is_wait halt.0.why ≡ false)) }
        ensures logs { IfOk result (λ gone. IfErr gone (λ halt. halt.1.items ≡ self.logs)) }
        ensures err { IfErr result IsShort }
    {
        let Merger { mut progress, logs } = self;
        match progress.run(&logs, &[]) {
            Ok(()) => Ok(Ok(Merger { progress, logs })),
            Err(fault) if fault.line_fault().is_short() => Err(fault.line_fault()),
            Err(fault) => Ok(Err((progress.halted(fault), logs))),
        }
    }

    /// What the logs come to that end here, as [`merge`](crate::merge) says it; and the logs, member 1's first.
    pub fn end(self) -> Result<(Verdict, Vec<Vec<LogLine>>), LineFault>
        // What is accepted is a merge of the logs.
        ensures merged { IfOk result (λ ended. IfAccepted ended.0 (λ w. IsMerge w self.logs)) }
        ensures setting { IfOk result (λ ended. IfAccepted ended.0 (λ w. w.setting ≡ self.setting)) }
        ensures cells { IfOk result (λ ended. IfAccepted ended.0 (λ w. w.cells ≡ self.cells)) }
        // A line that is told of is the next one of its log behind a run of the group, and is not taken there.
        ensures culprit { IfOk result (λ ended. IfStopped ended.0 (IsCulprit self.setting self.cells self.logs)) }
        // Its reason says which verdict it is.
        ensures told { IfOk result (λ ended. IfStopped ended.0 (λ culprit. ended.0 ≡ verdict_at culprit)) }
        // Where they are refused, no run of the group is a merge of logs that begin with these.
        ensures refused { IfOk result (λ ended. IfRefused ended.0 (λ culprit. NeverMerges self.setting self.logs)) }
        // Where a line waits, none is a merge of the logs as they are.
        ensures none { IfOk result (λ ended. IfStopped ended.0 (λ culprit. is_wait culprit.why ≡ true →
            HasNoMerge self.setting self.logs)) }
        ensures logs { IfOk result (λ ended. ended.1.items ≡ self.logs) }
        ensures err { IfErr result IsShort }
    {
        let Merger { progress, logs } = self;
        let verdict = judge(progress, &logs)?;
        Ok((verdict, logs))
    }
}

// So many logs without a line.
fn no_lines(alloc: Global, count: u8) -> Result<Vec<Vec<LogLine>>, AllocError>
    ensures count { IfOk result (λ logs. length logs.items ≡ count) }
    ensures bare { IfOk result (λ logs. All IsBare logs.items) }
{
    let mut logs = Vec::new(alloc);
    for i in 0..count {
        // The invariant names it.
        let _ = i;
        logs.push(Vec::new(alloc))?;
    }
    Ok(logs)
}

// The member's log goes on with the line.
fn push_line(logs: &mut Vec<Vec<LogLine>>, member: Member, line: LogLine) -> Result<(), AllocError>
    requires { is_member (length logs.old.items) member ≡ true }
    ensures here { OnOk result (log_of logs.new.items member ≡ log_of logs.old.items member ++ line ∷ []) }
    ensures others { (q : ℕ) → 1 ≤ q → q ≢ member → log_of logs.new.items q ≡ log_of logs.old.items q }
    ensures kept { OnErr result (log_of logs.new.items member ≡ log_of logs.old.items member) }
    ensures length { length logs.new.items ≡ length logs.old.items }
{
    let log = &mut logs[usize::from(member) - 1];
    match log.push(line) {
        Ok(()) => Ok(()),
        Err(_) => Err(AllocError),
    }
}
