//! Sessions: each line is answered as it comes.

ghost use Rattle.std.specs.Prelude.{◌≡◌, ◌≢◌, ◌+◌, ◌<◌, ◌^◌, Err, OnOk, OnErr, IfOk, IfErr, length, vec_len};
ghost use Rattle.std.specs.Io.KnownBytes.{Appends};
ghost use Rattle.ct_streams.specs.Streams.{FailsOnce, WritesPart};
ghost use Rattle.ct_judge.specs.SessionFaults.{StopsAnswering, StopsReading};
ghost use Rattle.ct_judge.specs.Sessions.{IsEnd, Says, SaysPart, after_bytes, at_end, heard_in, opening, said_by};

use crate::heard::Heard;
use crate::session::Session;
use crate::session_fault::SessionFault;
use ct_streams::{Failed, Sink, Source, write_all};
use std::alloc::Global;

// How many bytes are read at a time; as many bytes of answers are written before more of what was read is heard.
const BLOCK: usize = 65_536;

/// Reads lines to the end of the input and answers each with one line, and hands out the judge, and whether a line was refused.
/// The answers to the lines that a read ends are written before the next read. What the contract says of the input holds where
/// the reader tells its bytes, and what it says of the output where the writer does.
pub fn interact<R: Source, W: Sink>(
    alloc: Global,
    reader: &mut R,
    writer: &mut W,
) -> Result<Heard, SessionFault>
    requires reads { R.failures reader.old < 2 ^ 63 }
    requires writes { W.failures writer.old < 2 ^ 63 }
    // What was written is what the session of the input says, and it ends where that ends.
    ensures heard { IfOk result (IsEnd (R.left reader.old)) }
    ensures text { OnOk result (Says (R.left reader.old) (W.written writer.old) (W.written writer.new)) }
    // After a fault it is some first bytes of that.
    ensures part { OnErr result (SaysPart (R.left reader.old) (W.written writer.old) (W.written writer.new)) }
    // A stream failed where that is the fault, once, and else not at all; or the input did not end within 2^64 - 1 reads.
    ensures reader { result ≡ Err SessionFault.Read → StopsReading (R.left reader.old) (R.failures reader.old) (R.failures reader.new) }
    ensures no_read { result ≢ Err SessionFault.Read → R.failures reader.new ≡ R.failures reader.old }
    ensures writer { FailsOnce result SessionFault.Write (W.failures writer.old) (W.failures writer.new) }
{
    let mut block = block(alloc)?;
    let mut session = Session::new(alloc);
    listen(alloc, &mut session, reader, writer, &mut block)?;
    Ok(session.into_heard())
}

// Hears the input to its end, as much of it at a time as the block has room for.
fn listen<R: Source, W: Sink>(
    alloc: Global,
    session: &mut Session,
    reader: &mut R,
    writer: &mut W,
    block: &mut [u8],
) -> Result<(), SessionFault>
    requires opening { session.old ≡ opening }
    requires reads { R.failures reader.old < 2 ^ 63 }
    requires writes { W.failures writer.old < 2 ^ 63 }
    requires room { 0 < length block.old }
    ensures heard { OnOk result (IsEnd (R.left reader.old) (heard_in session.new)) }
    ensures text { OnOk result (Says (R.left reader.old) (W.written writer.old) (W.written writer.new)) }
    ensures part { OnErr result (SaysPart (R.left reader.old) (W.written writer.old) (W.written writer.new)) }
    ensures reader { result ≡ Err SessionFault.Read → StopsReading (R.left reader.old) (R.failures reader.old) (R.failures reader.new) }
    ensures no_read { result ≢ Err SessionFault.Read → R.failures reader.new ≡ R.failures reader.old }
    ensures writer { FailsOnce result SessionFault.Write (W.failures writer.old) (W.failures writer.new) }
{
    for i in 0..u64::MAX {
        // The invariant names it.
        let _ = i;
        let Ok(n) = reader.read(block) else {
            return Err(SessionFault::Read);
        };
        if n == 0 {
            return end(alloc, session, writer);
        }
        hear(alloc, session, writer, &block[..n])?;
    }
    Err(SessionFault::Read)
}

// Room for one read.
fn block(alloc: Global) -> Result<Vec<u8>, SessionFault>
    ensures room { IfOk result (λ block. 0 < vec_len block) }
    ensures err { OnErr result (result ≡ Err SessionFault.Memory) }
{
    match vec![in alloc; 0u8; BLOCK] {
        Ok(block) => Ok(block),
        Err(_) => Err(SessionFault::Memory),
    }
}

// Hears the bytes, and writes the answers to the lines that they end.
fn hear<W: Sink>(
    alloc: Global,
    session: &mut Session,
    writer: &mut W,
    bytes: &[u8],
) -> Result<(), SessionFault>
    requires { W.failures writer.old < 2 ^ 63 }
    ensures after { OnOk result (session.new ≡ after_bytes session.old bytes.now) }
    ensures text { OnOk result (Appends (W.written writer.old) (W.written writer.new) (said_by session.old bytes.now)) }
    ensures part { OnErr result (WritesPart (W.written writer.old) (W.written writer.new) (said_by session.old bytes.now)) }
    ensures ok { OnOk result (W.failures writer.new ≡ W.failures writer.old) }
    ensures err { IfErr result (λ fault. StopsAnswering fault (W.failures writer.old) (W.failures writer.new)) }
{
    let mut answers = String::new(alloc);
    for byte in bytes {
        session.hear(*byte, &mut answers)?;
        if answers.len() >= BLOCK {
            put(writer, &answers)?;
            answers.clear();
        }
    }
    put(writer, &answers)
}

// The end ends the line, if one has begun.
fn end<W: Sink>(alloc: Global, session: &mut Session, writer: &mut W) -> Result<(), SessionFault>
    requires { W.failures writer.old < 2 ^ 63 }
    ensures heard { OnOk result (session.new ≡ (at_end session.old session.old.line).hearing) }
    ensures text { OnOk result (Appends (W.written writer.old) (W.written writer.new) (at_end session.old session.old.line).text) }
    ensures part { OnErr result (WritesPart (W.written writer.old) (W.written writer.new) (at_end session.old session.old.line).text) }
    ensures ok { OnOk result (W.failures writer.new ≡ W.failures writer.old) }
    ensures err { IfErr result (λ fault. StopsAnswering fault (W.failures writer.old) (W.failures writer.new)) }
{
    let mut answer = String::new(alloc);
    if session.has_begun() {
        session.answer(&mut answer)?;
        put(writer, &answer)?;
    }
    Ok(())
}

// Writes all the text.
fn put<W: Sink>(writer: &mut W, text: &str) -> Result<(), SessionFault>
    requires { W.failures writer.old < 2 ^ 63 }
    ensures text { OnOk result (Appends (W.written writer.old) (W.written writer.new) text.now) }
    ensures part { OnErr result (WritesPart (W.written writer.old) (W.written writer.new) text.now) }
    ensures ok { OnOk result (W.failures writer.new ≡ W.failures writer.old) }
    ensures err { IfErr result (λ fault. (fault ≡ SessionFault.Write) × (W.failures writer.new ≡ W.failures writer.old + 1)) }
{
    match write_all(writer, text.as_bytes()) {
        Ok(()) => Ok(()),
        Err(Failed) => Err(SessionFault::Write),
    }
}
