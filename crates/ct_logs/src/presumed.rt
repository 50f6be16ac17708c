//! Logs whose ends are presumed.

ghost use Rattle.std.specs.Prelude.{◌≡◌, true, IfErr, IfOk, IfSome, List};
ghost use Rattle.std.specs.Global.{Vec};
ghost use Rattle.ct_world.specs.Setup.{setting_of};
ghost use Rattle.ct_merge.specs.Standstills.{AreStopped};
ghost use Rattle.ct_merge.specs.declared.log_line.LogLine.{LogLine};
ghost use Rattle.ct_logs.specs.Judging.{IsJudged, logs_in};
ghost use Rattle.ct_logs.specs.Sets.{AreFirstLines};
ghost use Rattle.ct_logs.specs.Silence.{IsSilent};

use crate::judged::{Judged, with_stopped};
use crate::log_set::LogSet;
use crate::merge_fault::MergeFault;
use ct_merge::{LogLine, Verdict};
use ct_presume::{Presumption, presume};
use ct_world::Setup;
use std::alloc::{AllocError, Global};

// What the logs of the group come to whose ends may be lost.
pub(crate) fn presumed_of(
    alloc: Global,
    setup: Setup,
    set: &mut LogSet,
) -> Result<Judged, MergeFault>
    ensures ok { IfOk result (IsJudged true (logs_in setup set.old)) }
    ensures expected { set.new.expected ≡ set.old.expected }
    ensures fault { IfErr result IsSilent }
{
    let logs = set.take_logs(alloc, setup.group.n())?;
    let same = setup;
    let Presumption { verdict, logs } = presume(alloc, setup, logs)?;
    with_lines(alloc, same, set, verdict, logs)
}

// What logs come to that come to this verdict, with what is told of the lines that were not read; the set has the others.
fn with_lines(
    alloc: Global,
    setup: Setup,
    set: &mut LogSet,
    verdict: Verdict,
    logs: Vec<Vec<LogLine>>,
) -> Result<Judged, MergeFault>
    ensures verdict { IfOk result (λ judged. judged.verdict ≡ verdict) }
    ensures stopped { IfOk result (λ judged. IfSome judged.stopped (λ lines.
        (first : List (Vec LogLine)) × AreFirstLines first logs.items × AreStopped (setting_of setup) setup.cells first lines)) }
    ensures expected { set.new.expected ≡ set.old.expected }
    ensures fault { IfErr result IsSilent }
{
    let mut logs = logs;
    let lines = lines_beside(alloc, set, &logs);
    cut_all(set, &mut logs);
    let judged = with_told(alloc, setup, verdict, &logs, lines);
    set.put_logs(logs);
    judged
}

// The same, with this told of the lines that were not read.
fn with_told(
    alloc: Global,
    setup: Setup,
    verdict: Verdict,
    logs: &[Vec<LogLine>],
    lines: Result<String, AllocError>,
) -> Result<Judged, MergeFault>
    ensures verdict { IfOk result (λ judged. judged.verdict ≡ verdict) }
    ensures stopped { IfOk result (λ judged. IfSome judged.stopped (AreStopped (setting_of setup) setup.cells logs.now)) }
    ensures fault { IfErr result IsSilent }
{
    match lines {
        Ok(lines) => with_stopped(alloc, setup, verdict, logs, lines),
        Err(_) => {
            drop(verdict);
            Err(MergeFault::Memory)
        }
    }
}

// The logs have the lines that were read alone.
fn cut_all(set: &LogSet, logs: &mut Vec<Vec<LogLine>>)
    ensures { AreFirstLines logs.new.items logs.old.items }
{
    cut_as_read(set, logs);
}

fn cut_as_read(set: &LogSet, logs: &mut [Vec<LogLine>])
    ensures { AreFirstLines logs.new logs.old }
{
    for place in 0..logs.len() {
        logs[place].truncate(set.count(place));
    }
}

// How many lines of which member these logs have besides those that were read: `3 steps of member 2, 1 steps of member 4`; nothing
// where they have none.
fn lines_beside(alloc: Global, set: &LogSet, logs: &[Vec<LogLine>]) -> Result<String, AllocError> {
    let mut text = String::new(alloc);
    for (i, log) in logs.iter().enumerate() {
        let count = log.len().saturating_sub(set.count(i));
        if count > 0 {
            push_count(&mut text, i.saturating_add(1), count)?;
        }
    }
    Ok(text)
}

fn push_count(text: &mut String, member: usize, count: usize) -> Result<(), AllocError> {
    let between = if text.is_empty() { "" } else { ", " };
    let steps = if count == 1 { "step" } else { "steps" };
    write!(text, "{between}{count} {steps} of member {member}")
}
