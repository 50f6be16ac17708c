//! A group whose logs grow.

ghost use Rattle.std.specs.Prelude.{IfOk};
ghost use Rattle.ct_merge.specs.Verdicts.{IfAccepted};
ghost use Rattle.ct_logs.specs.Merged.{IsSomeMerge};

use crate::judged::{Judged, with_stopped};
use crate::log_set::LogSet;
use crate::merge_fault::MergeFault;
use crate::setup::setup_of;
use ct_merge::{LogLine, Merger};
use ct_names::Member;
use std::alloc::{AllocError, Global};

// The member's log goes on with these lines, where it is one of the group's.
pub(crate) fn add(
    merger: &mut Merger,
    member: Member,
    lines: Vec<LogLine>,
) -> Result<(), AllocError> {
    for line in lines {
        push(merger, member, line)?;
    }
    Ok(())
}

fn push(merger: &mut Merger, member: Member, line: LogLine) -> Result<(), AllocError> {
    let group = merger.progress().stage().world().group();
    if group.has(member) {
        let mut line = line;
        line.name_sender(group);
        merger.push(member, line)?;
    }
    Ok(())
}

// What the logs come to that end here; the set has them from here on.
#[tactic(auto, using(crate::proofs::Merged::some_merge))]
pub(crate) fn end(alloc: Global, merger: Merger, set: &mut LogSet) -> Result<Judged, MergeFault>
    ensures { IfOk result (λ judged. IfAccepted judged.verdict IsSomeMerge) }
{
    let setup = setup_of(merger.progress().stage().world());
    let (verdict, logs) = merger.end()?;
    let judged = with_stopped(alloc, setup, verdict, &logs, String::new(alloc));
    set.put_logs(logs);
    judged
}
