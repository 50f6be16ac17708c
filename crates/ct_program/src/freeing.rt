//! A free run, and the record of it.

ghost use Rattle.std.specs.Prelude.{◌≡◌, ◌≢◌, ◌⊎◌, ◌^◌, ◌<◌, [], Ok, Err, OnOk, IfOk, IfErr, vec_len};
ghost use Rattle.ct_streams.specs.Streams.{FailsOnce};
ghost use Rattle.ct_world.specs.Replay.{world_after};
ghost use Rattle.ct_program.specs.FreeOptions.{InRange, setting_of};
ghost use Rattle.ct_program.specs.FreeRun.{HasMade, IsLineOfRun, WritesRun, WritesRunPart, IsFreeFault, of_run_fault};

use crate::free_options::FreeOptions;
use crate::planning::plan;
use ct_board::Board;
use ct_detect::Detector;
use ct_names::Group;
use ct_records::{ProgramFault, record_line};
use ct_rehearse::{NoGate, RehearseFault, Rehearsed, RunFault, rehearse};
use ct_streams::{Failed, Sink, write_all};
use ct_world::World;
use std::alloc::Global;
use std::sync::Wait;
use std::thread::Threads;

/// Runs a group freely: each member makes its turns in a thread of its own, with its detector, the first detector being
/// member 1's, beside a thread for each script: submissions with the crash, postponements, losses and repetitions. Then
/// it writes the record of the run and a line feed. A run is not the same each time: the threads take their turns in any
/// order. What the contract says of the output holds where the writer tells its bytes.
pub fn free<R: Threads + Wait + Sync, W: Sink>(
    rt: &R,
    alloc: Global,
    options: &FreeOptions,
    detectors: Vec<Box<dyn Detector>>,
    writer: &mut W,
) -> Result<(), ProgramFault>
    requires range { InRange options.now }
    requires detectors { vec_len detectors ≡ options.now.members }
    requires writes { W.failures writer.old < 2 ^ 63 }
    // What was written is the record of a run with these members, bound and cells, of no more steps than turns are asked
    // for, that ends in a safe state, and a line feed.
    ensures ok { OnOk result (WritesRun options.now (W.written writer.old) (W.written writer.new)) }
    ensures fault { IfErr result IsFreeFault }
    // Only a fault of the writer has written anything: some first bytes of such a line.
    ensures quiet { IfErr result (λ fault. fault ≢ ProgramFault.Write → writer.new ≡ writer.old) }
    ensures part { result ≡ Err ProgramFault.Write →
        WritesRunPart options.now (W.written writer.old) (W.written writer.new) }
    ensures writer { FailsOnce result ProgramFault.Write (W.failures writer.old) (W.failures writer.new) }
{
    let plan = plan(alloc, options)?;
    let (world, board) = first_world(alloc, options)?;
    let done = result_of(rehearse(rt, alloc, world, board, &plan, detectors, &NoGate))?;
    let text = line_of(alloc, options, &done)?;
    match write_all(writer, &text) {
        Ok(()) => Ok(()),
        Err(Failed) => Err(ProgramFault::Write),
    }
}

// What the rehearsal left, or why it failed.
fn result_of(run: Result<Rehearsed, RehearseFault>) -> Result<Rehearsed, ProgramFault>
    ensures ok { IfOk run (λ done. result ≡ Ok done) }
    ensures err { IfErr run (λ fault. result ≡ Err (of_run_fault fault.cause)) }
{
    match run {
        Ok(done) => Ok(done),
        Err(fault) => Err(of_run_fault(fault.cause)),
    }
}

// What a fault of the run's threads is for the program.
fn of_run_fault(fault: RunFault) -> ProgramFault
    ensures { result ≡ of_run_fault fault }
{
    match fault {
        RunFault::Memory => ProgramFault::Memory,
        RunFault::Start => ProgramFault::Start,
    }
}

// The world before the run, and its board.
fn first_world(alloc: Global, options: &FreeOptions) -> Result<(World, Board), ProgramFault>
    requires { InRange options.now }
    ensures ok { IfOk result (λ made. made.0 ≡ world_after (setting_of options.now) options.now.cells []) }
    ensures err { IfErr result (λ fault. fault ≡ ProgramFault.Memory) }
{
    let Some(group) = Group::new(options.members) else {
        unreachable!()
    };
    let Ok(world) = World::new(alloc, group, options.cells, options.batch) else {
        return Err(ProgramFault::Memory);
    };
    match Board::new(alloc, usize::from(options.cells)) {
        Ok(board) => Ok((world, board)),
        Err(_) => Err(ProgramFault::Memory),
    }
}

// The record of the run and a line feed, where its world has these members, bound and cells.
fn line_of(alloc: Global, options: &FreeOptions, done: &Rehearsed) -> Result<Vec<u8>, ProgramFault>
    requires { HasMade options.now done.now }
    ensures ok { IfOk result (λ text. IsLineOfRun options.now text.items) }
    ensures err { IfErr result (λ fault. (fault ≡ ProgramFault.Memory) ⊎ (fault ≡ ProgramFault.Exchanged)) }
{
    let world = &done.world;
    if world.group().n() != options.members
        || world.bound() != options.batch
        || world.cells() != options.cells
    {
        return Err(ProgramFault::Exchanged);
    }
    // For its clauses: the record is a run, and the state is safe.
    let _ = world.record();
    Ok(record_line(alloc, world)?)
}
