//! A record in, what a view shows of it out.

ghost use Rattle.std.specs.Prelude.{◌≡◌, ◌<◌, ◌^◌, Err, IfErr, IfSome, IsOkAnd, None, OnOk};
ghost use Rattle.ct_streams.specs.Streams.{FailsOnce};
ghost use Rattle.ct_records.specs.Script.{script};
ghost use Rattle.ct_records.specs.View.{rehearsal_of};
ghost use Rattle.ct_views.specs.Answer.{Shows, ShowsPart, FailsOn, IsQuiet, lacking};

use crate::answer::shown;
use crate::view::View;
use ct_names::Member;
use ct_records::{ProgramFault, Script};
use ct_streams::{Failed, Sink, Source, write_all};
use ct_told::{ShowFault, read_told};
use std::alloc::Global;

/// Reads a record to its end and writes what the view shows of it. The whole text is made before the first write. At a
/// refused step the text is written, too, and the fault is the step's. What the contract says of the input holds where the
/// reader tells its bytes, and what it says of the output where the writer does.
pub fn show<R: Source, W: Sink>(
    alloc: Global,
    reader: &mut R,
    writer: &mut W,
    view: &View,
) -> Result<(), ShowFault>
    requires reads { R.failures reader.old < 2 ^ 63 }
    requires writes { W.failures writer.old < 2 ^ 63 }
    // The input is a record whose steps are all allowed, and what was written is what the view shows of it.
    ensures ok { OnOk result (IfSome (R.left reader.old) (λ input.
        Shows view.now (script input) (W.written writer.old) (W.written writer.new))) }
    // A member whose steps are asked for is one of the record's group.
    ensures member { OnOk result (IfSome (R.left reader.old) (λ input. IsOkAnd (script input) (λ w. lacking view.now w ≡ None))) }
    ensures fault { IfErr result (λ fault. IfSome (R.left reader.old) (λ input.
        FailsOn view.now fault input (W.written writer.old) (W.written writer.new))) }
    // Where the writer failed, some first bytes of what would have been shown were written.
    ensures part { result ≡ Err (ShowFault.Program ProgramFault.Write) → IfSome (R.left reader.old) (λ input.
        ShowsPart view.now (script input) (W.written writer.old) (W.written writer.new)) }
    ensures reader { FailsOnce result (ShowFault.Program ProgramFault.Reader) (R.failures reader.old) (R.failures reader.new) }
    ensures writer { FailsOnce result (ShowFault.Program ProgramFault.Write) (W.failures writer.old) (W.failures writer.new) }
    // Nothing was written but at a refused step, or where the writer failed.
    ensures quiet { IfErr result (λ fault. IsQuiet fault → writer.new ≡ writer.old) }
{
    let script = read_told(alloc, reader)?;
    if let Some(member) = lacking(view, &script) {
        let members = script.group.n();
        return Err(ShowFault::NoMember { member, members });
    }
    let answer = shown(alloc, &script, view)?;
    match write_all(writer, &answer.text) {
        Err(Failed) => Err(ShowFault::Program(ProgramFault::Write)),
        Ok(()) => match answer.refused {
            None => Ok(()),
            Some(fault) => Err(ShowFault::Program(ProgramFault::Replay {
                at: fault.at,
                refusal: fault.refusal,
            })),
        },
    }
}

// The member whose steps are asked for, where the group lacks it.
fn lacking(view: &View, script: &Script) -> Option<Member>
    ensures { result ≡ lacking view.now (rehearsal_of script.now) }
{
    let member = view.member()?;
    (script.group.n() < member).then_some(member)
}
