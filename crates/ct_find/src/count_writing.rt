//! What is counted, written.

ghost use Rattle.std.specs.Prelude.{◌≡◌, ◌≢◌, ◌<◌, ◌^◌, Err, OnOk, IfOk, IfErr, string_bytes};
ghost use Rattle.ct_streams.specs.Streams.{FailsOnce};
ghost use Rattle.ct_walk.specs.declared.fault.WalkFault.TheVariants as walk;
ghost use Rattle.ct_find.specs.Counting.{none_in, none_shown, IsCountFault, WritesCount, WritesCountPart};
ghost use Rattle.ct_find.specs.Counts.{count_text};
ghost use Rattle.ct_find.specs.Line.{IsFindInRange};

use crate::call::FindCall;
use crate::count_text::{CountForm, CountText};
use crate::counting::count_in_threads;
use crate::fault::{FindFault, NotFound};
use crate::progress::Progress;
use crate::searching::jobs_or_all;
use crate::tally::Tally;
use ct_grammar::Text;
use ct_streams::{Failed, Sink, write_all};
use ct_walk::WalkFault;
use std::alloc::Global;
use std::thread::Threads;

/// Counts the seeds whose walks show the goal, and writes the count in this form; answers that there are none, where that is so.
pub fn write_count<R: Threads + Sync, W: Sink, P: Progress>(
    rt: &R,
    alloc: Global,
    call: FindCall,
    form: CountForm,
    writer: &mut W,
    progress: &mut P,
) -> Result<Option<NotFound>, FindFault>
    requires range { IsFindInRange call }
    requires writes { W.failures writer.old < 2 ^ 63 }
    // What was written is the text of the seeds' tally.
    ensures ok { OnOk result (WritesCount form call (W.written writer.old) (W.written writer.new)) }
    ensures none { IfOk result (λ none. none ≡ none_shown call) }
    ensures err { IfErr result IsCountFault }
    // Only a fault of the writer has written anything: some first bytes of such a text.
    ensures quiet { IfErr result (λ fault. fault ≢ FindFault.Walk walk.Write → writer.new ≡ writer.old) }
    ensures part { result ≡ Err (FindFault.Walk walk.Write) → WritesCountPart form call (W.written writer.old) (W.written writer.new) }
    ensures writer { FailsOnce result (FindFault.Walk walk.Write) (W.failures writer.old) (W.failures writer.new) }
{
    let FindCall {
        options,
        goal,
        text,
        seeds,
        jobs,
    } = call;
    let jobs = jobs_or_all(rt, jobs);
    let tally = count_in_threads(rt, alloc, &options, &goal, seeds, jobs, progress)?;
    let line = written(alloc, CountText { tally, form })?;
    match write_all(writer, line.as_bytes()) {
        Ok(()) => Ok(none_in(&tally, text)),
        Err(Failed) => Err(FindFault::Walk(WalkFault::Write)),
    }
}

// The text.
fn written(alloc: Global, text: CountText) -> Result<String, WalkFault>
    ensures ok { IfOk result (λ line. string_bytes line ≡ count_text text.form text.tally) }
    ensures err { IfErr result (λ fault. fault ≡ WalkFault.Memory) }
{
    Ok(format!(in alloc; "{text}")?)
}

// What is told where none of the seeds shows the goal, which was given in these words.
fn none_in(tally: &Tally, goal: Text) -> Option<NotFound>
    ensures { result ≡ none_in tally.now goal }
{
    if tally.shown > 0 {
        return None;
    }
    Some(NotFound {
        seeds: tally.seeds,
        goal,
    })
}
