//! A record in, a completed one out.

ghost use Rattle.std.specs.Prelude.{◌≡◌, ◌≢◌, ◌<◌, ◌^◌, Err, IfErr, IfSome, OnOk};
ghost use Rattle.ct_streams.specs.Streams.{FailsOnce};
ghost use Rattle.ct_records.specs.Script.{script};
ghost use Rattle.ct_complete.specs.Completing.{FailsOn, WritesCompleted, WritesCompletedInPart};

use crate::complete_fault::CompleteFault;
use crate::completing::completed;
use ct_records::ProgramFault;
use ct_streams::{Failed, Sink, Source, write_all};
use ct_told::{ShowFault, read_told};
use std::alloc::Global;

/// Reads a record to its end, takes turns of all behind its steps until nothing moves any more, and writes the record that they lead to,
/// where all is done there. The whole text is made before the first write. What the contract says of the input holds where the reader
/// tells its bytes, and what it says of the output where the writer does.
pub fn write_completed<R: Source, W: Sink>(
    alloc: Global,
    reader: &mut R,
    writer: &mut W,
) -> Result<(), CompleteFault>
    requires reads { R.failures reader.old < 2 ^ 63 }
    requires writes { W.failures writer.old < 2 ^ 63 }
    // The input is a record whose steps are all allowed, and the record that was written is one that turns lead to from there, in which
    // all that are up have delivered the same.
    ensures ok { OnOk result (IfSome (R.left reader.old) (λ input.
        WritesCompleted (script input) (W.written writer.old) (W.written writer.new))) }
    ensures fault { IfErr result (λ fault. IfSome (R.left reader.old) (FailsOn fault)) }
    // Where the writer failed, some first bytes of such a text were written.
    ensures part { result ≡ Err (CompleteFault.Show (ShowFault.Program ProgramFault.Write)) → IfSome (R.left reader.old) (λ input.
        WritesCompletedInPart (script input) (W.written writer.old) (W.written writer.new)) }
    ensures reader { FailsOnce result (CompleteFault.Show (ShowFault.Program ProgramFault.Reader))
        (R.failures reader.old) (R.failures reader.new) }
    ensures writer { FailsOnce result (CompleteFault.Show (ShowFault.Program ProgramFault.Write))
        (W.failures writer.old) (W.failures writer.new) }
    // Nothing was written but where the writer failed.
    ensures quiet { IfErr result (λ fault. fault ≢ CompleteFault.Show (ShowFault.Program ProgramFault.Write) → writer.new ≡ writer.old) }
{
    let script = read_told(alloc, reader)?;
    let text = completed(alloc, &script)?;
    match write_all(writer, &text) {
        Ok(()) => Ok(()),
        Err(Failed) => Err(CompleteFault::Show(ShowFault::Program(ProgramFault::Write))),
    }
}
