//! From bytes to a sink.

ghost use Rattle.std.specs.Prelude.{◌≡◌, ◌+◌, ◌<◌, ◌^◌, OnOk, OnErr};
ghost use Rattle.std.specs.Io.KnownBytes.{Appends};
ghost use Rattle.ct_streams.specs.Streams.{WritesPart};

use crate::failed::Failed;
use crate::sink::Sink;

/// Writes all the bytes, in as many writes as the sink takes, until one fails.
pub fn write_all<W: Sink>(writer: &mut W, bytes: &[u8]) -> Result<(), Failed>
    requires { W.failures writer.old < 2 ^ 63 }
    ensures bytes { OnOk result (Appends (W.written writer.old) (W.written writer.new) bytes.now) }
    ensures part { OnErr result (WritesPart (W.written writer.old) (W.written writer.new) bytes.now) }
    ensures ok { OnOk result (W.failures writer.new ≡ W.failures writer.old) }
    ensures err { OnErr result (W.failures writer.new ≡ W.failures writer.old + 1) }
{
    let mut rest = bytes;
    while !rest.is_empty() {
        let n = writer.write(rest)?;
        rest = &rest[n..];
    }
    Ok(())
}
