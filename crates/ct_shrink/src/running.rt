//! A record in, a smaller run out.

ghost use Rattle.std.specs.Prelude.{◌≡◌, ◌≢◌, ◌<◌, ◌^◌, Err, IfOk, IfErr, IfSome};
ghost use Rattle.ct_streams.specs.Streams.{FailsOnce};
ghost use Rattle.ct_records.specs.Script.{script};
ghost use Rattle.ct_records.specs.View.{rehearsal_of};
ghost use Rattle.ct_play.specs.Goals.{shows};
ghost use Rattle.ct_shrink.specs.Writing.{FailsOn, IsFaultOn, IsSmallerText, WritesSmaller, WritesSmallerInPart};

use crate::making::shrink;
use crate::options::ShrinkOptions;
use crate::progress::Progress;
use crate::shrink_fault::ShrinkFault;
use crate::summary::{SmallerRun, Summary};
use crate::writing::written;
use ct_grammar::Goal;
use ct_listing::replay;
use ct_play::stranger;
use ct_records::{ProgramFault, Script};
use ct_streams::{Failed, Sink, Source, write_all};
use ct_told::{ShowFault, read_told};
use std::alloc::Global;

/// Reads a record to its end, makes its run smaller and writes that; behind a schedule stands the line that expects the goal.
/// The whole text is made before the first write. What the contract says of the input holds where the reader tells its bytes, and
/// what it says of the output where the writer does.
pub fn write_smaller<R: Source, W: Sink, P: Progress>(
    alloc: Global,
    reader: &mut R,
    writer: &mut W,
    goal: &Goal,
    options: &ShrinkOptions,
    progress: &mut P,
) -> Result<Summary, ShrinkFault>
    requires reads { R.failures reader.old < 2 ^ 63 }
    requires writes { W.failures writer.old < 2 ^ 63 }
    // The input is a record whose steps are all allowed and whose group has the members that the goal names, and what was written is a
    // smaller run that shows the goal.
    ensures ok { IfOk result (λ summary. IfSome (R.left reader.old) (λ input.
        WritesSmaller (shows goal.now) goal.now options.now (script input) summary (W.written writer.old) (W.written writer.new))) }
    ensures fault { IfErr result (λ fault. IfSome (R.left reader.old) (FailsOn (shows goal.now) goal.now fault)) }
    // Where the writer failed, some first bytes of such a text were written.
    ensures part { result ≡ Err (ShrinkFault.Show (ShowFault.Program ProgramFault.Write)) → IfSome (R.left reader.old) (λ input.
        WritesSmallerInPart (shows goal.now) goal.now options.now (script input) (W.written writer.old) (W.written writer.new)) }
    ensures reader { FailsOnce result (ShrinkFault.Show (ShowFault.Program ProgramFault.Reader))
        (R.failures reader.old) (R.failures reader.new) }
    ensures writer { FailsOnce result (ShrinkFault.Show (ShowFault.Program ProgramFault.Write))
        (W.failures writer.old) (W.failures writer.new) }
    // Nothing was written but where the writer failed.
    ensures quiet { IfErr result (λ fault. fault ≢ ShrinkFault.Show (ShowFault.Program ProgramFault.Write) → writer.new ≡ writer.old) }
{
    let script = read_told(alloc, reader)?;
    let members = script.group.n();
    if let Some(member) = stranger(members, goal) {
        return Err(ShrinkFault::NoMember { member, members });
    }
    let made = smaller_of(alloc, &script, goal, options, progress)?;
    match write_all(writer, &made.text) {
        Ok(()) => Ok(made.summary),
        Err(Failed) => Err(ShrinkFault::Show(ShowFault::Program(ProgramFault::Write))),
    }
}

/// Makes the run of the record smaller, and answers its text; behind a schedule stands the line that expects the goal. Somebody is told
/// after each trial.
pub fn smaller_of<P: Progress>(
    alloc: Global,
    script: &Script,
    goal: &Goal,
    options: &ShrinkOptions,
    progress: &mut P,
) -> Result<SmallerRun, ShrinkFault>
    // The record's steps are all allowed, and the text is a smaller run that shows the goal.
    ensures ok { IfOk result (λ made.
        IsSmallerText (shows goal.now) goal.now options.now (rehearsal_of script.now) made.summary made.text.items) }
    ensures fault { IfErr result (IsFaultOn (shows goal.now) (rehearsal_of script.now)) }
{
    drop(replay(alloc, script)?);
    let setup = script.setup();
    let shrunk = shrink(alloc, setup, &script.steps, goal, options.tries, progress)?;
    let summary = Summary {
        steps: script.steps.len(),
        left: shrunk.lines.len(),
        trials: shrunk.trials,
        is_stopped: shrunk.is_stopped,
    };
    let text = written(alloc, shrunk.world, options.form, goal)?;
    Ok(SmallerRun { text, summary })
}
