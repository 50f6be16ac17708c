//! What is kept of sessions.

ghost use Rattle.std.specs.Prelude.{◌≡◌, ◌≢◌, ◌<◌, ◌^◌, Ok, Err, OnOk, IfOk, IfErr, IsOkAnd};
ghost use Rattle.ct_streams.specs.Streams.{FailsOnce};
ghost use Rattle.ct_judge.specs.Keeping.{IsKeepFaultOf, IsKeptIn, Keeps, KeepsPart};
ghost use Rattle.ct_judge.specs.Schedule.{IsSafeRun};
ghost use Rattle.ct_judging.specs.Standing.{world_of};

use crate::judge::Judge;
use crate::keep_fault::KeepFault;
use ct_play::LineFault;
use ct_records::record_line;
use ct_streams::{Failed, NewFiles};
use ct_world::World;
use std::alloc::{AllocError, Global};

/// Makes the file of this name with the record of a session and a line feed. What the contract says of the files holds where they
/// tell what was made.
#[tactic(auto, using(crate::proofs::Kept::kept_so))]
pub fn keep<F: NewFiles>(
    alloc: Global,
    judge: Judge,
    files: &mut F,
    name: &str,
) -> Result<(), KeepFault>
    requires { F.failures files.old < 2 ^ 63 }
    // The file has the record, which is a run of the algorithm that ends in a safe state.
    ensures ok { OnOk result (Keeps (world_of judge) (F.made files.old) (F.made files.new) name.now) }
    ensures safe { OnOk result (IsOkAnd (world_of judge) IsSafeRun) }
    // There is no record where the number of members was not given; of memory nothing is said.
    ensures fault { IfErr result (IsKeepFaultOf (world_of judge)) }
    // Only where the file can't be written one may have been made: with some first bytes of that.
    ensures quiet { IfErr result (λ fault. fault ≢ KeepFault.Write → files.new ≡ files.old) }
    ensures part { result ≡ Err KeepFault.Write → KeepsPart (world_of judge) (F.made files.old) (F.made files.new) name.now }
    ensures failed { FailsOnce result KeepFault.Write (F.failures files.old) (F.failures files.new) }
{
    let text = session_record(alloc, judge)?;
    match files.make(name, &text) {
        Ok(()) => Ok(()),
        Err(Failed) => Err(KeepFault::Write),
    }
}

// The record of a session and a line feed.
fn session_record(alloc: Global, judge: Judge) -> Result<Vec<u8>, KeepFault>
    ensures ok { IfOk result (λ text. IsKeptIn text.items (world_of judge)) }
    ensures safe { OnOk result (IsOkAnd (world_of judge) IsSafeRun) }
    ensures fault { IfErr result (IsKeepFaultOf (world_of judge)) }
    ensures no_write { IfErr result (λ fault. fault ≢ KeepFault.Write) }
{
    match judge.into_world() {
        Ok(world) => Ok(kept_line(alloc, &world)?),
        Err(LineFault::NoMembers) => Err(KeepFault::NoMembers),
        Err(_) => Err(KeepFault::Memory),
    }
}

// The record of the world and a line feed.
pub(crate) fn kept_line(alloc: Global, world: &World) -> Result<Vec<u8>, AllocError>
    ensures text { IfOk result (λ text. IsKeptIn text.items (Ok world.now.rehearsal)) }
    ensures safe { IsSafeRun world.now.rehearsal }
{
    // For its clauses: the record is a run, and the state is safe.
    let _ = world.record();
    record_line(alloc, world)
}
