//! A record, read to its end.

ghost use Rattle.std.specs.Prelude.{◌≡◌, ◌≢◌, ◌<◌, ◌^◌, Ok, IfOk, IfErr, IfSome};
ghost use Rattle.ct_streams.specs.Streams.{FailsOnce};
ghost use Rattle.ct_records.specs.Script.{script};
ghost use Rattle.ct_records.specs.View.{rehearsal_of};
ghost use Rattle.ct_told.specs.NoRecords.{IsUnread};

use crate::no_record::NoRecord;
use crate::show_fault::ShowFault;
use ct_records::{ProgramFault, ReadFault, Script, read_record};
use ct_streams::{Source, read_all};
use std::alloc::Global;

/// Reads a record to its end. What the contract says of the input holds where the reader tells its bytes, which are freed in the end.
#[tactic(auto, using(crate::proofs::Seen::told_seen))]
pub fn read_told<R: Source>(alloc: Global, reader: &mut R) -> Result<Script, ShowFault>
    requires { R.failures reader.old < 2 ^ 63 }
    ensures ok { IfOk result (λ found. IfSome (R.left reader.old) (λ input. script input ≡ Ok (rehearsal_of found))) }
    ensures fault { IfErr result (λ fault. IfSome (R.left reader.old) (IsUnread fault)) }
    ensures unwritten { IfErr result (λ fault. fault ≢ ShowFault.Program ProgramFault.Write) }
    ensures reader { FailsOnce result (ShowFault.Program ProgramFault.Reader) (R.failures reader.old) (R.failures reader.new) }
{
    let bytes = read_all(alloc, reader)?;
    match read_record(alloc, &bytes) {
        Ok(script) => Ok(script),
        Err(ReadFault::OutOfMemory) => Err(ShowFault::Program(ProgramFault::Memory)),
        Err(fault) => Err(ShowFault::Unread(NoRecord::of(alloc, fault, &bytes)?)),
    }
}
