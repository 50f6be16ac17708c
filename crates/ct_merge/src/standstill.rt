//! Logs that all stand still.

ghost use Rattle.std.specs.Prelude.{◌≡◌, ◌<◌, ◌≤◌, IfSome, None, Some, length, slice_get, true};
ghost use Rattle.ct_names.specs.Group.{is_member};
ghost use Rattle.ct_merge.specs.Logs.{log_of};
ghost use Rattle.ct_merge.specs.Merging.{IsWholeTo, count_of};
ghost use Rattle.ct_merge.specs.Stops.{IsCulpritAt, IsStandOf};
ghost use Rattle.ct_merge.specs.Waits.{AllWait, IsUnsent, WaitsAt};
ghost use Rattle.ct_merge.specs.declared.log_act.LogAct.{LogAct};

use crate::full_name::FullName;
use crate::log_line::LogLine;
use crate::own_fault::OwnFault;
use crate::progress::{Progress, log_of};
use crate::sending::may_come;
use crate::stand::Stand;
use crate::verdict::{Culprit, Why};
use ct_model::Step;
use ct_names::{MAX_MEMBERS, Member, Refusal, Serial};
use ct_play::LineFault;

// The serial of no envelope.
const NO_SERIAL: Serial = 0;

/// Where the log of the member stands, whose next line waits.
#[tactic(auto, using(crate::proofs::Standing::receipts))]
pub(crate) fn stand_of(progress: &Progress, logs: &[Vec<LogLine>], member: Member) -> Stand
    requires more { count_of progress.now.counts member < length (log_of logs.now member) }
    requires waits { WaitsAt logs.now progress.now member }
    ensures { IsStandOf logs.now progress.now member result }
{
    let Some(line) = log_of(logs, member).get(progress.count(member)) else {
        unreachable!()
    };
    match line.act.received() {
        Some(name) => awaited(progress, logs, member, line, name),
        None => unreachable!(),
    }
}

// Why the envelope of this name is not there for the member.
#[tactic(auto, using(crate::proofs::Standing::waits))]
fn awaited(
    progress: &Progress,
    logs: &[Vec<LogLine>],
    member: Member,
    line: &LogLine,
    name: FullName,
) -> Stand
    requires next { slice_get (log_of logs.now member) (count_of progress.now.counts member) ≡ Some line.now }
    requires act { line.now.act ≡ LogAct.Receive name }
    requires unsent { IsUnsent progress.now.rehearsal member name }
    ensures { IsStandOf logs.now progress.now member result }
{
    let _ = line;
    let world = progress.stage().world();
    // Nothing more is brought to a member that crashed.
    let brought = Step::Repeat(member, NO_SERIAL);
    if let Err(Refusal::Crashed) = world.enabled(&brought) {
        let fault = LineFault::Refused(brought, Refusal::Crashed);
        return Stand::Own(Why::Fault(OwnFault::Line(fault)));
    }
    let from = name.from;
    if !may_come(world, member, name) {
        return Stand::Own(Why::Never(from));
    }
    if log_of(logs, from).len() <= progress.count(from) {
        return Stand::Own(Why::Ended(from));
    }
    Stand::For(from)
}

// Where the waits of the member's log lead.
#[tactic(auto, using(crate::proofs::Standing::sender_in))]
fn root(progress: &Progress, logs: &[Vec<LogLine>], member: Member) -> Culprit
    requires member { is_member progress.now.rehearsal.setting.members member ≡ true }
    requires more { count_of progress.now.counts member < length (log_of logs.now member) }
    requires waits { AllWait logs.now progress.now }
    ensures { IsCulpritAt logs.now progress.now result }
{
    few(progress);
    let mut at = member;
    for step in 0..MAX_MEMBERS {
        let _ = step;
        match stand_of(progress, logs, at) {
            Stand::Own(why) => return culprit(progress, at, why),
            Stand::For(other) => at = other,
        }
    }
    culprit(progress, at, Why::Circle)
}

// A group has no more members.
fn few(progress: &Progress)
    ensures { progress.now.rehearsal.setting.members ≤ MAX_MEMBERS }
{
    let _ = progress.stage().world().group().n();
}

// The line at which the member's log stands.
fn culprit(progress: &Progress, member: Member, why: Why) -> Culprit
    ensures member { result.member ≡ member }
    ensures place { result.place ≡ count_of progress.now.counts member }
    ensures why { result.why ≡ why }
{
    Culprit {
        member,
        place: progress.count(member),
        why,
        run: None,
    }
}

/// The line at which logs stand of which each waits: of those at which waits end, one that waits for a log that has ended only where
/// all do; None where each log has ended.
pub(crate) fn standstill(progress: &Progress, logs: &[Vec<LogLine>]) -> Option<Culprit>
    requires { AllWait logs.now progress.now }
    ensures whole { result ≡ None → IsWholeTo logs.now progress.now.counts progress.now.rehearsal.setting.members }
    ensures culprit { IfSome result (IsCulpritAt logs.now progress.now) }
{
    let mut cut = None;
    for i in 0..progress.stage().world().group().n() {
        let member = i + 1;
        if progress.count(member) < log_of(logs, member).len() {
            let culprit = root(progress, logs, member);
            match &culprit.why {
                Why::Ended(_) => cut = Some(culprit),
                _ => return Some(culprit),
            }
        }
    }
    cut
}
