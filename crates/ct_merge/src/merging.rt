//! Logs, merged into one run.

ghost use Rattle.std.specs.Prelude.{◌≡◌, ◌≤◌, IfErr, IfOk, Some, length, true};
ghost use Rattle.ct_world.specs.Setup.{setting_of};
ghost use Rattle.ct_play.specs.Faults.{IsShort};
ghost use Rattle.ct_merge.specs.Logs.{IsMerge};
ghost use Rattle.ct_merge.specs.Merging.{IsLater, IsTakenFrom};
ghost use Rattle.ct_merge.specs.Stops.{IsCulprit};
ghost use Rattle.ct_merge.specs.Verdicts.{IfAccepted, IfRefused, IfStopped, verdict_at};
ghost use Rattle.ct_merge.specs.Waits.{AllWait, HasNoMerge, NeverMerges, is_wait};

use crate::log_line::LogLine;
use crate::own_fault::OwnFault;
use crate::progress::Progress;
use crate::standstill::standstill;
use crate::taker::lawful;
use crate::taking_all::take_all;
use crate::verdict::{Culprit, Verdict};
use ct_play::LineFault;
use ct_world::{Setup, World};
use std::alloc::Global;

/// Merges the logs of members into one run; the first one is member 1's. What they come to is exact, but where a limit is in the way, or
/// memory or the board is refused: then nobody is accused. A line whose sender is not named (`lacks_sender`) waits for an envelope of
/// member 0, which never comes: [`name_sender`](LogLine::name_sender) first.
#[tactic(auto, using(crate::proofs::Advancing::nothing_taken))]
pub fn merge(alloc: Global, setup: Setup, logs: &[Vec<LogLine>]) -> Result<Verdict, LineFault>
    requires { length logs.now ≤ setup.group }
    // What is accepted is a merge of the logs.
    ensures merged { IfOk result (λ verdict. IfAccepted verdict (λ w. IsMerge w logs.now)) }
    ensures setting { IfOk result (λ verdict. IfAccepted verdict (λ w. w.setting ≡ setting_of setup)) }
    ensures cells { IfOk result (λ verdict. IfAccepted verdict (λ w. w.cells ≡ setup.cells)) }
    // A line that is told of is the next one of its log behind a run of the group, and is not taken there.
    ensures culprit { IfOk result (λ verdict. IfStopped verdict (IsCulprit (setting_of setup) setup.cells logs.now)) }
    // Its reason says which verdict it is: logs are incomplete at a log that has ended, limited by a limit, and refused for all else.
    ensures told { IfOk result (λ verdict. IfStopped verdict (λ culprit. verdict ≡ verdict_at culprit)) }
    // Where they are refused, no run of the group is a merge of logs that begin with these.
    ensures refused { IfOk result (λ verdict. IfRefused verdict (λ culprit. NeverMerges (setting_of setup) logs.now)) }
    // Where a line waits, none is a merge of the logs as they are.
    ensures none { IfOk result (λ verdict. IfStopped verdict (λ culprit. is_wait culprit.why ≡ true →
        HasNoMerge (setting_of setup) logs.now)) }
    ensures err { IfErr result IsShort }
{
    let progress = Progress::new(alloc, setup)?;
    judge(progress, logs)
}

/// Takes the lines, and says what they come to.
#[tactic(auto, using(crate::proofs::Verdicts::judged, crate::proofs::Halting::is_culprit, crate::proofs::Standstills::all_wait))]
pub(crate) fn judge(progress: Progress, logs: &[Vec<LogLine>]) -> Result<Verdict, LineFault>
    requires { IsTakenFrom logs.now progress }
    ensures merged { IfOk result (λ verdict. IfAccepted verdict (λ w. IsMerge w logs.now)) }
    ensures later { IfOk result (λ verdict. IfAccepted verdict (IsLater progress.rehearsal)) }
    ensures culprit { IfOk result (λ verdict. IfStopped verdict
        (IsCulprit progress.rehearsal.setting progress.rehearsal.cells logs.now)) }
    ensures told { IfOk result (λ verdict. IfStopped verdict (λ culprit. verdict ≡ verdict_at culprit)) }
    ensures refused { IfOk result (λ verdict. IfRefused verdict (λ culprit. NeverMerges progress.rehearsal.setting logs.now)) }
    ensures none { IfOk result (λ verdict. IfStopped verdict (λ culprit. is_wait culprit.why ≡ true →
        HasNoMerge progress.rehearsal.setting logs.now)) }
    ensures err { IfErr result IsShort }
{
    let mut progress = progress;
    match take_all(&mut progress, logs, &[]) {
        Ok(()) => Ok(ended(progress, logs)),
        Err(fault) if fault.line_fault().is_short() => Err(fault.line_fault()),
        Err(fault) => Ok(Verdict::at(progress.halted(fault))),
    }
}

// What logs come to of which each is over or waits.
#[tactic(auto, using(crate::proofs::Advancing::all_taken, crate::proofs::Standing::culprit_behind, crate::proofs::Verdicts::ended))]
fn ended(progress: Progress, logs: &[Vec<LogLine>]) -> Verdict
    requires taken { IsTakenFrom logs.now progress }
    requires waits { AllWait logs.now progress }
    ensures merged { IfAccepted result (λ w. IsMerge w logs.now) }
    ensures record { IfAccepted result (λ w. w ≡ progress.rehearsal) }
    ensures culprit { IfStopped result (IsCulprit progress.rehearsal.setting progress.rehearsal.cells logs.now) }
    ensures told { IfStopped result (λ culprit. result ≡ verdict_at culprit) }
    ensures refused { IfRefused result (λ culprit. NeverMerges progress.rehearsal.setting logs.now) }
    ensures none { IfStopped result (λ culprit. is_wait culprit.why ≡ true → HasNoMerge progress.rehearsal.setting logs.now) }
{
    lawful(progress.stage().world());
    match standstill(&progress, logs) {
        Some(culprit) => Verdict::at(behind(culprit, progress.into_world())),
        None => Verdict::Accepted(progress.into_world()),
    }
}

// The line, with the run behind which it stands.
fn behind(culprit: Culprit, world: World) -> Culprit
    ensures { result ≡ record culprit { run = Some world } }
{
    let Culprit {
        member,
        place,
        why,
        run: _,
    } = culprit;
    Culprit {
        member,
        place,
        why,
        run: Some(world),
    }
}
