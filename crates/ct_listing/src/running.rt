//! A record in, its schedule out.

ghost use Rattle.std.specs.Prelude.{◌≡◌, ◌≢◌, ◌<◌, ◌^◌, Err, IfErr, IfSome, OnOk};
ghost use Rattle.ct_streams.specs.Streams.{FailsOnce};
ghost use Rattle.ct_records.specs.Script.{script};
ghost use Rattle.ct_listing.specs.Listing.{FailsOn, WritesSchedule, WritesScheduleInPart};

use crate::writing::schedule_of;
use ct_records::ProgramFault;
use ct_streams::{Failed, Sink, Source, write_all};
use ct_told::{ShowFault, read_told};
use std::alloc::Global;

/// Reads a record to its end and writes it as a schedule. The whole text is made before the first write. What the contract
/// says of the input holds where the reader tells its bytes, and what it says of the output where the writer does.
pub fn write_schedule<R: Source, W: Sink>(
    alloc: Global,
    reader: &mut R,
    writer: &mut W,
) -> Result<(), ShowFault>
    requires reads { R.failures reader.old < 2 ^ 63 }
    requires writes { W.failures writer.old < 2 ^ 63 }
    // The input is a record whose steps are all allowed, and of the text that was written the judge makes the same record.
    ensures ok { OnOk result (IfSome (R.left reader.old) (λ input.
        WritesSchedule (script input) (W.written writer.old) (W.written writer.new))) }
    ensures fault { IfErr result (λ fault. IfSome (R.left reader.old) (FailsOn fault)) }
    // Where the writer failed, some first bytes of such a text were written.
    ensures part { result ≡ Err (ShowFault.Program ProgramFault.Write) → IfSome (R.left reader.old) (λ input.
        WritesScheduleInPart (script input) (W.written writer.old) (W.written writer.new)) }
    ensures reader { FailsOnce result (ShowFault.Program ProgramFault.Reader) (R.failures reader.old) (R.failures reader.new) }
    ensures writer { FailsOnce result (ShowFault.Program ProgramFault.Write) (W.failures writer.old) (W.failures writer.new) }
    // Nothing was written but where the writer failed.
    ensures quiet { IfErr result (λ fault. fault ≢ ShowFault.Program ProgramFault.Write → writer.new ≡ writer.old) }
{
    let script = read_told(alloc, reader)?;
    let text = schedule_of(alloc, &script)?;
    match write_all(writer, &text) {
        Ok(()) => Ok(()),
        Err(Failed) => Err(ShowFault::Program(ProgramFault::Write)),
    }
}
