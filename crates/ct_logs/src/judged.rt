//! What logs come to, and where they stand.

ghost use Rattle.std.specs.Prelude.{◌≡◌, IfErr, IfOk, IfSome};
ghost use Rattle.ct_world.specs.Setup.{setting_of};
ghost use Rattle.ct_merge.specs.Standstills.{AreStopped};
ghost use Rattle.ct_logs.specs.Silence.{IsSilent};

use crate::merge_fault::MergeFault;
use ct_merge::{LogLine, StoppedLines, Verdict, stopped};
use ct_play::LineFault;
use ct_world::Setup;
use std::alloc::Global;

// What logs come to.
#[derive(Drop)]
pub(crate) struct Judged {
    pub verdict: Verdict,
    // The lines at which they stand; None where they are accepted.
    pub stopped: Option<StoppedLines>,
    // What is told of lines that are presumed; nothing where none are.
    pub presumed: String,
}

// What logs come to that come to this verdict, with the lines at which they stand, and this told of lines that are presumed.
pub(crate) fn with_stopped(
    alloc: Global,
    setup: Setup,
    verdict: Verdict,
    logs: &[Vec<LogLine>],
    presumed: String,
) -> Result<Judged, MergeFault>
    ensures verdict { IfOk result (λ judged. judged.verdict ≡ verdict) }
    ensures stopped { IfOk result (λ judged. IfSome judged.stopped (AreStopped (setting_of setup) setup.cells logs.now)) }
    ensures fault { IfErr result IsSilent }
{
    match stopped_of(alloc, setup, &verdict, logs) {
        Ok(stopped) => Ok(Judged {
            verdict,
            stopped,
            presumed,
        }),
        Err(fault) => {
            drop(verdict);
            drop(presumed);
            Err(MergeFault::from(fault))
        }
    }
}

// The lines at which logs stand that come to this; None where they are accepted.
fn stopped_of(
    alloc: Global,
    setup: Setup,
    verdict: &Verdict,
    logs: &[Vec<LogLine>],
) -> Result<Option<StoppedLines>, LineFault>
    ensures { IfOk result (λ stopped. IfSome stopped (AreStopped (setting_of setup) setup.cells logs.now)) }
{
    match verdict {
        Verdict::Accepted(_) => Ok(None),
        _ => Ok(Some(stopped(alloc, setup, logs)?)),
    }
}
