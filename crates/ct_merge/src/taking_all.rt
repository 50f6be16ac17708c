//! Lines of logs, taken until each log stands.

ghost use Rattle.std.specs.Prelude.{◌≡◌, IfErr, OnOk};
ghost use Rattle.ct_merge.specs.Merging.{IsLater, IsTakenFrom};
ghost use Rattle.ct_merge.specs.Standstills.{AllWaitBut};
ghost use Rattle.ct_merge.specs.Stops.{IsHalt};

use crate::log_line::LogLine;
use crate::own_fault::OwnFault;
use crate::progress::Progress;
use crate::taker::lawful;
use crate::unsent::ready;
use crate::verdict::Culprit;

/// Takes lines of the logs, each up to the one of these lines that is its own, until each is over or waits for an envelope that was not
/// sent. A fault is that of the next line of the log that was tried last.
pub(crate) fn take_all(
    progress: &mut Progress,
    logs: &[Vec<LogLine>],
    refused: &[Culprit],
) -> Result<(), OwnFault>
    requires { IsTakenFrom logs.now progress.old }
    ensures taken { OnOk result (IsTakenFrom logs.now progress.new) }
    ensures later { OnOk result (IsLater progress.old.rehearsal progress.new.rehearsal) }
    ensures waits { OnOk result (AllWaitBut logs.now progress.new refused.now) }
    ensures halt { IfErr result (IsHalt progress.old.rehearsal logs.now progress.new) }
{
    progress.run(logs, refused)?;
    // No clause of a run says that none is left: here it is asked.
    while let Some((member, serial)) = ready(progress, logs, refused) {
        progress.take_next(logs, member, serial)?;
        progress.run(logs, refused)?;
        lawful(progress.stage().world());
    }
    Ok(())
}
