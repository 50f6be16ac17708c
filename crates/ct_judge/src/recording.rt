//! A schedule in, its record out.

ghost use Rattle.std.specs.Prelude.{◌≡◌, ◌≢◌, ◌⊎◌, ◌+◌, ◌≤◌, ◌<◌, ◌^◌, length, Ok, Err, OnOk, IfOk, IfErr, IfSome, IsOkAnd};
ghost use Rattle.ct_streams.specs.Streams.{FailsOnce, read_part};
ghost use Rattle.ct_grammar.specs.Texts.{lines_of};
ghost use Rattle.ct_judge.specs.Schedule.{IsFaultIn, IsFaultOrStream, IsLeftAt, IsRecordOf, IsSafeRun, Writes, WritesPartOf};
ghost use Rattle.ct_judging.specs.Schedule.{after_lines};
ghost use Rattle.ct_judge.specs.Schedule.{before_fault};
ghost use Rattle.ct_judging.specs.Schedule.{schedule};

use crate::record_fault::RecordFault;
use crate::recorder::Recorder;
use ct_grammar::{behind, first_feed};
use ct_records::record_line;
use ct_streams::{Failed, InputFault, Sink, Source, read_all, write_all};
use ct_world::World;
use std::alloc::Global;

/// How many bytes a schedule has at most.
pub const MAX_LEN: usize = 67_108_864;

/// Reads a schedule to its end and writes its record and a line feed. What the contract says of the input holds where the
/// reader tells its bytes, and what it says of the output where the writer does.
pub fn record<R: Source, W: Sink>(
    alloc: Global,
    reader: &mut R,
    writer: &mut W,
) -> Result<(), RecordFault>
    requires reads { R.failures reader.old < 2 ^ 63 }
    requires writes { W.failures writer.old < 2 ^ 63 }
    // Each line is taken, each expectation met, and what was written is the record.
    ensures ok { OnOk result (IfSome (R.left reader.old) (λ input.
        Writes (schedule (read_part input)) (W.written writer.old) (W.written writer.new))) }
    // The fault is that of the first line that is refused.
    ensures fault { IfErr result (λ fault. IfSome (R.left reader.old) (λ input. IsFaultOrStream (schedule (read_part input)) fault)) }
    // Only a fault of the writer has written anything: some first bytes of the record.
    ensures quiet { IfErr result (λ fault. fault ≢ RecordFault.Write → writer.new ≡ writer.old) }
    ensures part { result ≡ Err RecordFault.Write → IfSome (R.left reader.old) (λ input.
        WritesPartOf (schedule (read_part input)) (W.written writer.old) (W.written writer.new)) }
    // The input is too long where that is the fault; where a record is written it is not.
    ensures long { result ≡ Err RecordFault.TooLong → IfSome (R.left reader.old) (λ input. MAX_LEN < length input) }
    ensures within { OnOk result (IfSome (R.left reader.old) (λ input. length input ≤ MAX_LEN)) }
    ensures reader { FailsOnce result RecordFault.Read (R.failures reader.old) (R.failures reader.new) }
    ensures writer { FailsOnce result RecordFault.Write (W.failures writer.old) (W.failures writer.new) }
{
    let bytes = read(alloc, reader)?;
    let text = recorded(alloc, &bytes)?;
    match write_all(writer, &text) {
        Ok(()) => Ok(()),
        Err(Failed) => Err(RecordFault::Write),
    }
}

// The text of the schedule.
pub(crate) fn read<R: Source>(alloc: Global, reader: &mut R) -> Result<Vec<u8>, RecordFault>
    requires { R.failures reader.old < 2 ^ 63 }
    ensures bytes { IfOk result (λ bytes. IfSome (R.left reader.old) (λ input. bytes.items ≡ read_part input)) }
    ensures fault { IfErr result (λ fault. (fault ≡ RecordFault.Read) ⊎ (fault ≡ RecordFault.Memory)) }
    ensures reader { FailsOnce result RecordFault.Read (R.failures reader.old) (R.failures reader.new) }
{
    match read_all(alloc, reader) {
        Ok(bytes) => Ok(bytes),
        Err(InputFault::Reader) => Err(RecordFault::Read),
        Err(_) => Err(RecordFault::Memory),
    }
}

/// The record of a schedule of this text, and a line feed.
pub fn recorded(alloc: Global, text: &[u8]) -> Result<Vec<u8>, RecordFault>
    ensures ok { IfOk result (λ line. IsRecordOf (schedule text.now) line.items) }
    // It is a run of the algorithm, which ends in a safe state.
    ensures safe { OnOk result (IsOkAnd (schedule text.now) IsSafeRun) }
    ensures fault { IfErr result (IsFaultIn (schedule text.now)) }
    ensures no_stream { IfErr result (λ fault. (fault ≢ RecordFault.Read) × (fault ≢ RecordFault.Write)) }
    // It is too long by its length alone.
    ensures long { result ≡ Err RecordFault.TooLong → MAX_LEN < length text.now }
    ensures within { result ≢ Err RecordFault.TooLong → length text.now ≤ MAX_LEN }
{
    if text.len() > MAX_LEN {
        return Err(RecordFault::TooLong);
    }
    let world = played(alloc, text)?;
    Ok(record_line(alloc, &world)?)
}

/// The world that a schedule of this text leads to.
#[tactic(auto, using(crate::proofs::Lines::finish_fault), unfolding(ct_judging::specs::Schedule::schedule))]
pub fn played(alloc: Global, text: &[u8]) -> Result<World, RecordFault>
    requires { length text.now ≤ MAX_LEN }
    ensures ok { IfOk result (λ world. schedule text.now ≡ Ok world.rehearsal) }
    ensures safe { IfOk result (λ world. IsSafeRun world.rehearsal) }
    ensures fault { IfErr result (IsFaultIn (schedule text.now)) }
    ensures short { result ≢ Err RecordFault.TooLong }
{
    let mut recorder = Recorder::new(alloc);
    tell_lines(&mut recorder, text)?;
    let world = recorder.finish()?;
    // For its clauses: the record is a run, and the state is safe.
    let _ = world.record();
    Ok(world)
}

// Tells the lines up to the first that is refused.
#[tactic(auto, using(crate::proofs::Lines::by_line))]
pub(crate) fn tell_lines(recorder: &mut Recorder, text: &[u8]) -> Result<(), RecordFault>
    requires { recorder.old.number + length text.now < 2 ^ 63 }
    ensures ok { OnOk result (after_lines recorder.old (lines_of text.now) ≡ Ok recorder.new) }
    ensures fault { IfErr result (IsFaultIn (after_lines recorder.old (lines_of text.now))) }
    ensures left { IfErr result (IsLeftAt (before_fault recorder.old (lines_of text.now)) recorder.new) }
    ensures short { result ≢ Err RecordFault.TooLong }
{
    let mut rest = text;
    while let Some(end) = first_feed(rest) {
        recorder.take(&rest[..end])?;
        rest = behind(rest, end);
    }
    recorder.take(rest)
}
