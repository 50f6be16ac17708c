//! A record in, its report out.

ghost use Rattle.std.specs.Prelude.{◌≡◌, ◌≢◌, ◌<◌, ◌^◌, ℕ, List, Err, OnOk, IfOk, IfErr, IfSome};
ghost use Rattle.ct_streams.specs.Streams.{FailsOnce};
ghost use Rattle.ct_records.specs.Replay.{IsReportOf, WritesReport, WritesReportPart, IsFaultIn};
ghost use Rattle.ct_records.specs.Front.{IsBegun, IsWholeOf};

use crate::input::{Input, piece};
use crate::program_fault::ProgramFault;
use crate::read_fault::ReadFault;
use crate::reading::{MAX_LEN, read_record};
use crate::reporting::report;
use crate::running::run;
use ct_streams::{Failed, Sink, Source, write_all};
use ct_world::{Stage, World};
use std::alloc::Global;

/// Reads a record to its end, replays it and writes the report. The steps are done as they are read, so that neither the text
/// nor a list of the steps is kept beside the world. Where something is escaped, a step is refused or a number that the world
/// is made with stands behind the steps, what was read is made again from the steps that were done, and all is read before the
/// first step. The whole report is made before the first write. What the contract says of the input holds where the reader
/// tells its bytes, and what it says of the output where the writer does.
pub fn run_replay<R: Source, W: Sink>(
    alloc: Global,
    reader: &mut R,
    writer: &mut W,
) -> Result<(), ProgramFault>
    requires reads { R.failures reader.old < 2 ^ 63 }
    requires writes { W.failures writer.old < 2 ^ 63 }
    // The input is a record whose steps are all allowed, so a run that ends in a safe state, and what was written is
    // its report, which shows that state.
    ensures ok { OnOk result (IfSome (R.left reader.old) (λ input.
        WritesReport input (W.written writer.old) (W.written writer.new))) }
    ensures fault { IfErr result (λ fault. IfSome (R.left reader.old) (IsFaultIn fault)) }
    // Only a fault of the writer has written anything: some first bytes of the report.
    ensures quiet { IfErr result (λ fault. fault ≢ ProgramFault.Write → writer.new ≡ writer.old) }
    ensures part { result ≡ Err ProgramFault.Write → IfSome (R.left reader.old) (λ input.
        WritesReportPart input (W.written writer.old) (W.written writer.new)) }
    ensures reader { FailsOnce result ProgramFault.Reader (R.failures reader.old) (R.failures reader.new) }
    ensures writer { FailsOnce result ProgramFault.Write (W.failures writer.old) (W.failures writer.new) }
{
    let text = report_of(alloc, reader)?;
    match write_all(writer, &text) {
        Ok(()) => Ok(()),
        Err(Failed) => Err(ProgramFault::Write),
    }
}

// The report of the record that the source has.
fn report_of<R: Source>(alloc: Global, reader: &mut R) -> Result<Vec<u8>, ProgramFault>
    requires { R.failures reader.old < 2 ^ 63 }
    ensures ok { IfOk result (λ text. IfSome (R.left reader.old) (λ input. IsReportOf input text.items)) }
    ensures fault { IfErr result (λ fault. IfSome (R.left reader.old) (IsFaultIn fault)) }
    ensures no_write { result ≢ Err ProgramFault.Write }
    ensures reader { FailsOnce result ProgramFault.Reader (R.failures reader.old) (R.failures reader.new) }
{
    let mut piece = piece(alloc)?;
    let mut input = Input::new(alloc);
    if let Some(stage) = run(alloc, reader, &mut piece, &mut input)? {
        return report_after(alloc, &stage);
    }
    input.read_up_to(reader, &mut piece, MAX_LEN + 1)?;
    if input.count > MAX_LEN {
        return Err(ProgramFault::Read(ReadFault::TooLong));
    }
    answer(alloc, input.bytes)
}

// The report of the world.
fn report_after(alloc: Global, stage: &Stage) -> Result<Vec<u8>, ProgramFault>
    requires { IsBegun stage.now.rehearsal }
    ensures ok { IfOk result (λ text. (bytes : List ℕ) → IsWholeOf bytes stage.now.rehearsal → IsReportOf bytes text.items) }
    ensures err { IfErr result (λ fault. fault ≡ ProgramFault.Memory) }
{
    Ok(report(alloc, stage.world())?)
}

// The report of the record, whose bytes are freed before the first step is done.
fn answer(alloc: Global, bytes: Vec<u8>) -> Result<Vec<u8>, ProgramFault>
    ensures ok { IfOk result (λ text. IsReportOf bytes.items text.items) }
    ensures fault { IfErr result (λ fault. IsFaultIn fault bytes.items) }
    ensures no_stream { IfErr result (λ fault. (fault ≢ ProgramFault.Reader) × (fault ≢ ProgramFault.Write)) }
{
    let script = read_record(alloc, &bytes)?;
    drop(bytes);
    let (world, _board) = World::replay(
        alloc,
        script.group,
        script.cells,
        script.batch,
        &script.steps,
    )?;
    Ok(report(alloc, &world)?)
}
