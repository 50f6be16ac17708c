//! A record in, its diagram out.

ghost use Rattle.std.specs.Prelude.{◌≡◌, ◌≢◌, ◌<◌, ◌^◌, Err, IfErr, IfSome, IsOkAnd, None, OnOk};
ghost use Rattle.ct_streams.specs.Streams.{FailsOnce};
ghost use Rattle.ct_records.specs.Script.{script};
ghost use Rattle.ct_diagram.specs.Running.{Draws, DrawsPart, FailsOn};
ghost use Rattle.ct_diagram.specs.Window.{lacking};

use crate::drawing::diagram;
use crate::window::Window;
use ct_records::ProgramFault;
use ct_streams::{Failed, Sink, Source, write_all};
use ct_told::{ShowFault, read_told};
use std::alloc::Global;

/// Reads a record to its end and writes the diagram of the steps that the window has. The whole text is made before the first
/// write. What the contract says of the input holds where the reader tells its bytes, and what it says of the output where the
/// writer does.
pub fn draw<R: Source, W: Sink>(
    alloc: Global,
    reader: &mut R,
    writer: &mut W,
    window: &Window,
) -> Result<(), ShowFault>
    requires reads { R.failures reader.old < 2 ^ 63 }
    requires writes { W.failures writer.old < 2 ^ 63 }
    // The input is a record whose steps up to the window's last one are allowed, and what was written is their diagram.
    ensures ok { OnOk result (IfSome (R.left reader.old) (λ input.
        Draws window.now (script input) (W.written writer.old) (W.written writer.new))) }
    // Members that are asked for are members of the record's group.
    ensures members { OnOk result (IfSome (R.left reader.old) (λ input. IsOkAnd (script input) (λ w. lacking window.now w ≡ None))) }
    ensures fault { IfErr result (λ fault. IfSome (R.left reader.old) (FailsOn window.now fault)) }
    // Where the writer failed, some first bytes of such a diagram were written.
    ensures part { result ≡ Err (ShowFault.Program ProgramFault.Write) → IfSome (R.left reader.old) (λ input.
        DrawsPart window.now (script input) (W.written writer.old) (W.written writer.new)) }
    ensures reader { FailsOnce result (ShowFault.Program ProgramFault.Reader) (R.failures reader.old) (R.failures reader.new) }
    ensures writer { FailsOnce result (ShowFault.Program ProgramFault.Write) (W.failures writer.old) (W.failures writer.new) }
    // Nothing was written but where the writer failed.
    ensures quiet { IfErr result (λ fault. fault ≢ ShowFault.Program ProgramFault.Write → writer.new ≡ writer.old) }
{
    let script = read_told(alloc, reader)?;
    if let Some(member) = window.stranger(script.group) {
        let members = script.group.n();
        return Err(ShowFault::NoMember { member, members });
    }
    let text = diagram(alloc, &script, window)?;
    match write_all(writer, &text) {
        Ok(()) => Ok(()),
        Err(Failed) => Err(ShowFault::Program(ProgramFault::Write)),
    }
}
