//! Logs that wait for what was not sent.

ghost use Rattle.std.specs.Prelude.{◌≡◌, IfSome, None, true};
ghost use Rattle.ct_names.specs.Group.{is_member};
ghost use Rattle.ct_merge.specs.Logs.{log_of};
ghost use Rattle.ct_merge.specs.Merging.{IsReady, count_of};
ghost use Rattle.ct_merge.specs.Standstills.{AllWaitBut};

use crate::log_line::LogLine;
use crate::progress::Progress;
use crate::refusals::is_refused;
use crate::verdict::Culprit;
use ct_names::{Member, Serial};

/// A member whose log is not over and stands at none of these lines, and whose next line waits for no envelope that was not sent; with the
/// serial of what it receives. None: there is no such member.
pub(crate) fn ready(
    progress: &Progress,
    logs: &[Vec<LogLine>],
    refused: &[Culprit],
) -> Option<(Member, Serial)>
    ensures member { IfSome result (λ found. is_member progress.now.rehearsal.setting.members found.0 ≡ true) }
    ensures ready { IfSome result (λ found.
        IsReady progress.now.rehearsal found.0 (log_of logs.now found.0) (count_of progress.now.counts found.0) found.1) }
    ensures waits { result ≡ None → AllWaitBut logs.now progress.now refused.now }
{
    for i in 0..progress.stage().world().group().n() {
        let member = i + 1;
        if !is_refused(refused, member, progress.count(member)) {
            if let Some(serial) = progress.ready(logs, member) {
                return Some((member, serial));
            }
        }
    }
    None
}
