//! The record of a schedule up to its first line that is refused.

ghost use Rattle.std.specs.Prelude.{◌≡◌, ◌≢◌, ◌≤◌, ◌<◌, ◌^◌, length, Err, OnOk, IfOk, IfErr, IfSome, IsOk};
ghost use Rattle.std.specs.Io.KnownBytes.{Appends};
ghost use Rattle.ct_streams.specs.Streams.{FailsOnce, WritesPart, read_part};
ghost use Rattle.ct_grammar.specs.Texts.{lines_of};
ghost use Rattle.ct_judge.specs.Schedule.{IsEndIn, IsFaultIn, IsFaultOrStream, IsOfLine, IsToldEnd, before_fault};
ghost use Rattle.ct_judging.specs.Schedule.{beginning};
ghost use Rattle.ct_judge.specs.Schedule.{part_of, part_text};
ghost use Rattle.ct_judging.specs.Schedule.{schedule};
ghost use Rattle.ct_judging.specs.Standing.{world_of};

use crate::judge::Judge;
use crate::keeping::kept_line;
use crate::record_fault::RecordFault;
use crate::recorder::Recorder;
use crate::recording::{MAX_LEN, read, tell_lines};
use ct_play::LineFault;
use ct_streams::{Failed, Sink, Source, write_all};
use std::alloc::Global;

// The record of the lines that are taken and a line feed, and how the schedule ended.
#[derive(Drop)]
struct Part {
    line: Vec<u8>,
    ended: Result<(), RecordFault>,
}

/// Reads a schedule to its end and writes the record of the lines before the first that is refused, and a line feed; nothing
/// where they don't give the number of members. Where a line is refused, that is the fault all the same.
pub fn record_partial<R: Source, W: Sink>(
    alloc: Global,
    reader: &mut R,
    writer: &mut W,
) -> Result<(), RecordFault>
    requires reads { R.failures reader.old < 2 ^ 63 }
    requires writes { W.failures writer.old < 2 ^ 63 }
    // Each line is taken, each expectation met, or the fault is that of the first line that is refused.
    ensures ok { OnOk result (IfSome (R.left reader.old) (λ input. IsOk (schedule (read_part input)))) }
    ensures fault { IfErr result (λ fault. IfSome (R.left reader.old) (λ input. IsFaultOrStream (schedule (read_part input)) fault)) }
    // What was written is the record of the lines before it; where the writer failed, some first bytes of that.
    ensures all { OnOk result (IfSome (R.left reader.old) (λ input.
        Appends (W.written writer.old) (W.written writer.new) (part_text (part_of (read_part input))))) }
    ensures refused { IfErr result (λ fault. IsOfLine fault → IfSome (R.left reader.old) (λ input.
        Appends (W.written writer.old) (W.written writer.new) (part_text (part_of (read_part input))))) }
    ensures part { result ≡ Err RecordFault.Write → IfSome (R.left reader.old) (λ input.
        WritesPart (W.written writer.old) (W.written writer.new) (part_text (part_of (read_part input)))) }
    ensures reader { FailsOnce result RecordFault.Read (R.failures reader.old) (R.failures reader.new) }
    ensures writer { FailsOnce result RecordFault.Write (W.failures writer.old) (W.failures writer.new) }
{
    let bytes = read(alloc, reader)?;
    let part = recorded_part(alloc, &bytes)?;
    write_part(writer, part)
}

// Writes the record, and hands out how the schedule ended.
fn write_part<W: Sink>(writer: &mut W, part: Part) -> Result<(), RecordFault>
    requires writes { W.failures writer.old < 2 ^ 63 }
    requires told { IsToldEnd part.ended }
    ensures ok { result ≢ Err RecordFault.Write → result ≡ part.ended }
    ensures all { result ≢ Err RecordFault.Write → Appends (W.written writer.old) (W.written writer.new) part.line.items }
    ensures part { result ≡ Err RecordFault.Write → WritesPart (W.written writer.old) (W.written writer.new) part.line.items }
    ensures writer { FailsOnce result RecordFault.Write (W.failures writer.old) (W.failures writer.new) }
{
    let Part { line, ended } = part;
    match write_all(writer, &line) {
        Ok(()) => ended,
        Err(Failed) => Err(RecordFault::Write),
    }
}

// The record of the lines that are taken, and how the schedule of this text ended.
#[tactic(auto, unfolding(crate::specs::Schedule::part_of))]
fn recorded_part(alloc: Global, text: &[u8]) -> Result<Part, RecordFault>
    ensures line { IfOk result (λ part. part.line.items ≡ part_text (part_of text.now)) }
    ensures ended { IfOk result (λ part. IsEndIn (schedule text.now) part.ended) }
    ensures told { IfOk result (λ part. IsToldEnd part.ended) }
    ensures fault { IfErr result (IsFaultIn (schedule text.now)) }
    ensures no_line { IfErr result (λ fault. IsOfLine fault → ⊥) }
{
    if text.len() > MAX_LEN {
        return Err(RecordFault::TooLong);
    }
    let mut recorder = Recorder::new(alloc);
    let ended = of_line(tell_all(&mut recorder, text))?;
    let line = part_line(alloc, recorder.into_judge())?;
    Ok(Part { line, ended })
}

// Tells all the lines up to the first that is refused.
#[tactic(auto, using(crate::proofs::Lines::to_end), unfolding(ct_judging::specs::Schedule::schedule))]
fn tell_all(recorder: &mut Recorder, text: &[u8]) -> Result<(), RecordFault>
    requires beginning { recorder.old ≡ beginning }
    requires short { length text.now ≤ MAX_LEN }
    ensures ended { IsEndIn (schedule text.now) result }
    ensures at { IsToldEnd result → recorder.new ≡ before_fault beginning (lines_of text.now) }
{
    tell_lines(recorder, text)?;
    recorder.end()
}

// An end that is not of a line is a fault here.
fn of_line(ended: Result<(), RecordFault>) -> Result<Result<(), RecordFault>, RecordFault>
    ensures same { IfOk result (λ end. end ≡ ended) }
    ensures line { IfOk result IsToldEnd }
    ensures fault { IfErr result (λ fault. ended ≡ Err fault) }
    ensures no_line { IfErr result (λ fault. IsOfLine fault → ⊥) }
{
    match ended {
        Ok(()) => Ok(Ok(())),
        Err(RecordFault::Line { at, fault, text }) => {
            Ok(Err(RecordFault::Line { at, fault, text }))
        }
        Err(fault) => Err(fault),
    }
}

// The record of the judge's world and a line feed; nothing where the number of members was not given.
fn part_line(alloc: Global, judge: Judge) -> Result<Vec<u8>, RecordFault>
    ensures ok { IfOk result (λ line. line.items ≡ part_text (world_of judge)) }
    ensures err { IfErr result (λ fault. fault ≡ RecordFault.Memory) }
{
    match judge.into_world() {
        Ok(world) => Ok(kept_line(alloc, &world)?),
        Err(LineFault::NoMembers) => Ok(Vec::new(alloc)),
        Err(_) => Err(RecordFault::Memory),
    }
}
