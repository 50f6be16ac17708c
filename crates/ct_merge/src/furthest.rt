//! How far logs go.

ghost use Rattle.std.specs.Prelude.{◌≡◌, ◌<◌, ◌≤◌, ◌++◌, ◌∷◌, ◌⊎◌, [], All, IfErr, IfOk, IfSome, OnOk, false, length, true};
ghost use Rattle.ct_world.specs.Setup.{setting_of};
ghost use Rattle.ct_play.specs.Faults.{IsShort};
ghost use Rattle.ct_merge.specs.Logs.{log_of};
ghost use Rattle.ct_merge.specs.Merging.{count_of, IsTakenFrom};
ghost use Rattle.ct_merge.specs.Standstills.{AllWaitBut, AreStopped, AreToldTo, IsRefusedLine, IsSentBy, IsStoppedAt, is_refused};
ghost use Rattle.ct_merge.specs.Stops.{IsCulprit};
ghost use Rattle.ct_merge.specs.Waits.{WaitsAt, is_wait};

use crate::log_act::LogAct;
use crate::log_line::LogLine;
use crate::progress::{Progress, log_of};
use crate::refusals::is_refused;
use crate::sending_line::sending_line;
use crate::stand::Stand;
use crate::standstill::stand_of;
use crate::stopped_line::StoppedLine;
use crate::stopped_lines::StoppedLines;
use crate::taker::lawful;
use crate::taking_all::take_all;
use crate::verdict::Culprit;
use ct_names::{MAX_MEMBERS, Member};
use ct_play::LineFault;
use ct_world::Setup;
use std::alloc::{AllocError, Global};

/// The lines at which logs stand that are taken as far as they go; the first log is member 1's. A log stops at a line that is refused by
/// itself or by a limit, and the others go on. No line where all logs are over. Only memory or the board can be refused.
pub fn stopped(
    alloc: Global,
    setup: Setup,
    logs: &[Vec<LogLine>],
) -> Result<StoppedLines, LineFault>
    ensures stopped { IfOk result (AreStopped (setting_of setup) setup.cells logs.now) }
    ensures err { IfErr result IsShort }
{
    let mut refused = Vec::new(alloc);
    let progress = furthest(alloc, setup, logs, &mut refused)?;
    lawful(progress.stage().world());
    let waiting = waiting(alloc, &progress, logs, &refused)?;
    Ok(StoppedLines {
        refused,
        waiting,
        run: progress.into_world(),
    })
}

// How far the logs go, each up to a line that is refused by itself; puts these lines behind the others.
#[tactic(auto, using(crate::proofs::Standstills::refused_more))]
fn furthest(
    alloc: Global,
    setup: Setup,
    logs: &[Vec<LogLine>],
    refused: &mut Vec<Culprit>,
) -> Result<Progress, LineFault>
    requires { All (IsRefusedLine (setting_of setup) setup.cells logs.now) refused.old.items }
    ensures taken { IfOk result (IsTakenFrom logs.now) }
    ensures setting { IfOk result (λ progress. progress.rehearsal.setting ≡ setting_of setup) }
    ensures cells { IfOk result (λ progress. progress.rehearsal.cells ≡ setup.cells) }
    ensures waits { IfOk result (λ progress. AllWaitBut logs.now progress refused.new.items) }
    ensures refused { OnOk result (All (IsRefusedLine (setting_of setup) setup.cells logs.now) refused.new.items) }
    ensures err { IfErr result IsShort }
{
    // Each pass but the last stops one log more.
    for pass in 0..=MAX_MEMBERS {
        // The invariant names it.
        let _ = pass;
        let same = setup;
        match go_to(alloc, same, logs, refused)? {
            Ok(progress) => return Ok(progress),
            Err(culprit) => push(refused, culprit)?,
        }
    }
    // It doesn't come to this.
    Err(LineFault::OutOfMemory)
}

// How far the logs go, each up to the one of these lines that is its own; or a line that is refused by itself.
#[tactic(auto, using(crate::proofs::Advancing::nothing_taken, crate::proofs::Halting::is_culprit))]
fn go_to(
    alloc: Global,
    setup: Setup,
    logs: &[Vec<LogLine>],
    refused: &[Culprit],
) -> Result<Result<Progress, Culprit>, LineFault>
    ensures taken { IfOk result (λ gone. IfOk gone (IsTakenFrom logs.now)) }
    ensures setting { IfOk result (λ gone. IfOk gone (λ progress. progress.rehearsal.setting ≡ setting_of setup)) }
    ensures cells { IfOk result (λ gone. IfOk gone (λ progress. progress.rehearsal.cells ≡ setup.cells)) }
    ensures waits { IfOk result (λ gone. IfOk gone (λ progress. AllWaitBut logs.now progress refused.now)) }
    ensures culprit { IfOk result (λ gone. IfErr gone (IsCulprit (setting_of setup) setup.cells logs.now)) }
    ensures fault { IfOk result (λ gone. IfErr gone (λ culprit. is_wait culprit.why ≡ false)) }
    ensures err { IfErr result IsShort }
{
    let mut progress = Progress::new(alloc, setup)?;
    match take_all(&mut progress, logs, refused) {
        Ok(()) => Ok(Ok(progress)),
        Err(fault) if fault.line_fault().is_short() => Err(fault.line_fault()),
        Err(fault) => Ok(Err(progress.halted(fault))),
    }
}

fn push(refused: &mut Vec<Culprit>, culprit: Culprit) -> Result<(), AllocError>
    ensures { OnOk result (refused.new.items ≡ refused.old.items ++ culprit ∷ []) }
{
    match refused.push(culprit) {
        Ok(()) => Ok(()),
        Err(_) => Err(AllocError),
    }
}

// The next line of each log that is not over and does not stand at one of these lines.
#[tactic(auto, using(crate::proofs::Standstills::all_told))]
fn waiting(
    alloc: Global,
    progress: &Progress,
    logs: &[Vec<LogLine>],
    refused: &[Culprit],
) -> Result<Vec<StoppedLine>, AllocError>
    requires { AllWaitBut logs.now progress.now refused.now }
    ensures stopped { IfOk result (λ lines. All (IsStoppedAt logs.now progress.now) lines.items) }
    ensures each { IfOk result (λ lines. AreToldTo logs.now progress.now refused.now lines.items progress.now.rehearsal.setting.members) }
{
    let mut lines = Vec::new(alloc);
    for i in 0..progress.stage().world().group().n() {
        if !is_told(progress, logs, refused, i + 1) {
            lines.push(stopped_at(progress, logs, i + 1))?;
        }
    }
    Ok(lines)
}

// Whether the member's log is over, or stands at one of these lines.
fn is_told(progress: &Progress, logs: &[Vec<LogLine>], refused: &[Culprit], member: Member) -> bool
    ensures told { result ≡ true → (length (log_of logs.now member) ≤ count_of progress.now.counts member)
        ⊎ (is_refused refused.now member (count_of progress.now.counts member) ≡ true) }
    ensures more { result ≡ false → count_of progress.now.counts member < length (log_of logs.now member) }
    ensures other { result ≡ false → is_refused refused.now member (count_of progress.now.counts member) ≡ false }
{
    let count = progress.count(member);
    log_of(logs, member).len() <= count || is_refused(refused, member, count)
}

// The next line of the member's log, why it is not taken, and what would send what it receives, where it waits for another log.
fn stopped_at(progress: &Progress, logs: &[Vec<LogLine>], member: Member) -> StoppedLine
    requires more { count_of progress.now.counts member < length (log_of logs.now member) }
    requires waits { WaitsAt logs.now progress.now member }
    ensures stopped { IsStoppedAt logs.now progress.now result }
    ensures member { result.member ≡ member }
{
    let stand = stand_of(progress, logs, member);
    let sender = match &stand {
        Stand::For(_) => sender_of(progress, logs, member),
        Stand::Own(_) => None,
    };
    StoppedLine {
        member,
        place: progress.count(member),
        stand,
        sender,
    }
}

// The line that would send what the next line of the member's log receives.
fn sender_of(progress: &Progress, logs: &[Vec<LogLine>], member: Member) -> Option<usize>
    ensures { IfSome result (IsSentBy logs.now progress.now member) }
{
    let line = log_of(logs, member).get(progress.count(member))?;
    match line.act {
        LogAct::Receive(name) => sending_line(
            progress.stage().world().group(),
            log_of(logs, name.from),
            progress.count(name.from),
            name,
        ),
        _ => None,
    }
}
