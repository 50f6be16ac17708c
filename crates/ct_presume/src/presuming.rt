//! Logs whose ends may be lost.

ghost use Rattle.std.specs.Prelude.{◌≡◌, IfErr, IfOk, IfSome, OnOk, length, true};
ghost use Rattle.ct_world.specs.Setup.{setting_of};
ghost use Rattle.ct_play.specs.Faults.{IsShort};
ghost use Rattle.ct_merge.specs.Logs.{IsMerge};
ghost use Rattle.ct_merge.specs.Stops.{IsCulprit};
ghost use Rattle.ct_merge.specs.Verdicts.{IfAccepted, IfRefused, IfStopped, verdict_at};
ghost use Rattle.ct_merge.specs.Waits.{AllBegin, HasNoMerge, NeverMerges, is_ended, is_wait};
ghost use Rattle.ct_presume.specs.Presuming.{AllOpenWith};

use crate::ends::Ends;
use crate::presumption::Presumption;
use crate::receipts::Receipts;
use ct_merge::{Culprit, LogAct, LogLine, Merger, Verdict, merge};
use ct_names::Member;
use ct_play::LineFault;
use ct_world::{Setup, World};
use std::alloc::{AllocError, Global};

// How many lines are presumed at most.
const MAX_PRESUMED: u32 = 65_536;

// Logs that go on, and their run, where they are one.
#[derive(Drop)]
struct Continued {
    run: Option<World>,
    logs: Vec<Vec<LogLine>>,
}

/// Merges the logs of members into one run, as [`merge`]; the first one is member 1's. Where they are incomplete, ends of logs are taken
/// to be lost: members go on behind their logs so that they send what others received, as it is stated there. Only memory or the board can
/// be refused.
#[tactic(auto, using(crate::proofs::GoingOn::presumed))]
pub fn presume(
    alloc: Global,
    setup: Setup,
    logs: Vec<Vec<LogLine>>,
) -> Result<Presumption, LineFault>
    requires { length logs.items ≡ setup.group }
    // Each log begins as it was given; the lines behind that are presumed.
    ensures begun { IfOk result (λ p. AllBegin logs.items p.logs.items) }
    // What is accepted is a merge of the logs with these lines.
    ensures merged { IfOk result (λ p. IfAccepted p.verdict (λ w. IsMerge w p.logs.items)) }
    // So each member's first own steps are those of its log as it was given.
    ensures first { IfOk result (λ p. IfAccepted p.verdict (λ w. AllOpenWith w logs.items)) }
    ensures setting { IfOk result (λ p. IfAccepted p.verdict (λ w. w.setting ≡ setting_of setup)) }
    ensures cells { IfOk result (λ p. IfAccepted p.verdict (λ w. w.cells ≡ setup.cells)) }
    // Lines are presumed only where no run of the group is a merge of the logs as they were given.
    ensures needed { IfOk result (λ p. (HasNoMerge (setting_of setup) logs.items → ⊥) → p.logs.items ≡ logs.items) }
    // A line that is told of is the next one of its log, as that was given, behind a run of the group, and is not taken there.
    ensures culprit { IfOk result (λ p. IfStopped p.verdict (IsCulprit (setting_of setup) setup.cells logs.items)) }
    // Its reason says which verdict it is.
    ensures told { IfOk result (λ p. IfStopped p.verdict (λ culprit. p.verdict ≡ verdict_at culprit)) }
    // Where they are refused, no run of the group is a merge of logs that begin with these.
    ensures refused { IfOk result (λ p. IfRefused p.verdict (λ culprit. NeverMerges (setting_of setup) logs.items)) }
    // Where a line waits, none is a merge of the logs as they were given.
    ensures none { IfOk result (λ p. IfStopped p.verdict (λ culprit. is_wait culprit.why ≡ true →
        HasNoMerge (setting_of setup) logs.items)) }
    ensures err { IfErr result IsShort }
{
    let same = setup;
    match merge(alloc, setup, &logs)? {
        Verdict::Accepted(world) => Ok(Presumption {
            verdict: Verdict::Accepted(world),
            logs,
        }),
        Verdict::Refused(culprit) => Ok(Presumption {
            verdict: Verdict::Refused(culprit),
            logs,
        }),
        Verdict::Limited(culprit) => Ok(Presumption {
            verdict: Verdict::Limited(culprit),
            logs,
        }),
        Verdict::Incomplete(culprit) => incomplete(alloc, same, logs, culprit),
    }
}

// What logs come to that are incomplete at this line.
#[tactic(auto, using(crate::proofs::GoingOn::presumed))]
fn incomplete(
    alloc: Global,
    setup: Setup,
    logs: Vec<Vec<LogLine>>,
    culprit: Culprit,
) -> Result<Presumption, LineFault>
    requires count { length logs.items ≡ setup.group }
    requires culprit { IsCulprit (setting_of setup) setup.cells logs.items culprit }
    requires ended { is_ended culprit.why ≡ true }
    requires none { HasNoMerge (setting_of setup) logs.items }
    ensures begun { IfOk result (λ p. AllBegin logs.items p.logs.items) }
    ensures merged { IfOk result (λ p. IfAccepted p.verdict (λ w. IsMerge w p.logs.items)) }
    ensures setting { IfOk result (λ p. IfAccepted p.verdict (λ w. w.setting ≡ setting_of setup)) }
    ensures cells { IfOk result (λ p. IfAccepted p.verdict (λ w. w.cells ≡ setup.cells)) }
    ensures needed { IfOk result (λ p. (HasNoMerge (setting_of setup) logs.items → ⊥) → p.logs.items ≡ logs.items) }
    ensures culprit { IfOk result (λ p. IfStopped p.verdict (IsCulprit (setting_of setup) setup.cells logs.items)) }
    ensures told { IfOk result (λ p. IfStopped p.verdict (λ culprit. p.verdict ≡ verdict_at culprit)) }
    ensures refused { IfOk result (λ p. IfRefused p.verdict (λ culprit. NeverMerges (setting_of setup) logs.items)) }
    ensures none { IfOk result (λ p. IfStopped p.verdict (λ culprit. is_wait culprit.why ≡ true →
        HasNoMerge (setting_of setup) logs.items)) }
    ensures err { IfErr result IsShort }
{
    let culprit = alone(culprit);
    let Continued { run, logs } = beyond(alloc, setup, logs)?;
    match run {
        Some(world) => Ok(Presumption {
            verdict: Verdict::Accepted(world),
            logs,
        }),
        None => Ok(Presumption {
            verdict: Verdict::Incomplete(culprit),
            logs,
        }),
    }
}

// The line, without the run behind which it stands.
fn alone(culprit: Culprit) -> Culprit
    ensures { result ≡ record culprit { run = None } }
{
    let Culprit {
        member,
        place,
        why,
        run: _,
    } = culprit;
    Culprit {
        member,
        place,
        why,
        run: None,
    }
}

// The logs with lines that are presumed behind them, and their run, where they are one.
fn beyond(alloc: Global, setup: Setup, logs: Vec<Vec<LogLine>>) -> Result<Continued, LineFault>
    requires { length logs.items ≡ setup.group }
    ensures begun { IfOk result (λ it. AllBegin logs.items it.logs.items) }
    ensures merged { IfOk result (λ it. IfSome it.run (λ world. IsMerge world.rehearsal it.logs.items)) }
    ensures setting { IfOk result (λ it. IfSome it.run (λ world. world.rehearsal.setting ≡ setting_of setup)) }
    ensures cells { IfOk result (λ it. IfSome it.run (λ world. world.rehearsal.cells ≡ setup.cells)) }
    ensures err { IfErr result IsShort }
{
    let same = setup;
    let merger = Merger::with_logs(alloc, setup, logs)?;
    let receipts = Receipts::new(alloc, same.group, &merger)?;
    let continued = go_beyond(merger, &receipts);
    drop(receipts);
    continued
}

// The same of logs that a merger has, by what they say that was received: takes lines, and one that is presumed, as long as that leads.
#[tactic(auto, using(crate::proofs::GoingOn::going))]
fn go_beyond(merger: Merger, receipts: &Receipts) -> Result<Continued, LineFault>
    ensures begun { IfOk result (λ it. AllBegin merger.logs it.logs.items) }
    ensures merged { IfOk result (λ it. IfSome it.run (λ world. IsMerge world.rehearsal it.logs.items)) }
    ensures setting { IfOk result (λ it. IfSome it.run (λ world. world.rehearsal.setting ≡ merger.setting)) }
    ensures cells { IfOk result (λ it. IfSome it.run (λ world. world.rehearsal.cells ≡ merger.cells)) }
    ensures err { IfErr result IsShort }
{
    let mut growing = merger;
    for more in 0..=MAX_PRESUMED {
        // The invariant names it.
        let _ = more;
        growing = match growing.go_on()? {
            Ok(growing) => growing,
            Err((culprit, logs)) => {
                drop(culprit);
                return Ok(Continued { run: None, logs });
            }
        };
        if !presume_line(&mut growing, receipts)? {
            return ended(growing);
        }
    }
    ended(growing)
}

// Presumes one more line. Whether there is one that may be presumed.
#[tactic(auto, using(crate::proofs::GoingOn::going))]
fn presume_line(merger: &mut Merger, receipts: &Receipts) -> Result<bool, AllocError>
    ensures begun { OnOk result (AllBegin merger.old.logs merger.new.logs) }
    ensures setting { merger.new.setting ≡ merger.old.setting }
    ensures cells { merger.new.cells ≡ merger.old.cells }
{
    let Some((member, act)) = next_line(merger, receipts) else {
        return Ok(false);
    };
    if !merger.progress().stage().world().group().has(member) {
        return Ok(false);
    }
    let line = LogLine {
        act,
        said: None,
        lacks_sender: false,
    };
    merger.push(member, line)?;
    Ok(true)
}

// A line that may be presumed, and whose it is.
fn next_line(merger: &Merger, receipts: &Receipts) -> Option<(Member, LogAct)> {
    let ends = Ends { merger, receipts };
    ends.next()
}

// The logs that end here, and their run, where they are one.
fn ended(merger: Merger) -> Result<Continued, LineFault>
    ensures logs { IfOk result (λ it. it.logs.items ≡ merger.logs) }
    ensures merged { IfOk result (λ it. IfSome it.run (λ world. IsMerge world.rehearsal merger.logs)) }
    ensures setting { IfOk result (λ it. IfSome it.run (λ world. world.rehearsal.setting ≡ merger.setting)) }
    ensures cells { IfOk result (λ it. IfSome it.run (λ world. world.rehearsal.cells ≡ merger.cells)) }
    ensures err { IfErr result IsShort }
{
    let (verdict, logs) = merger.end()?;
    match verdict {
        Verdict::Accepted(world) => Ok(Continued {
            run: Some(world),
            logs,
        }),
        Verdict::Refused(culprit) | Verdict::Incomplete(culprit) | Verdict::Limited(culprit) => {
            drop(culprit);
            Ok(Continued { run: None, logs })
        }
    }
}
