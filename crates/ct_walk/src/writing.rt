//! Records of walks, written.

ghost use Rattle.std.specs.Prelude.{◌≡◌, ◌≢◌, ◌<◌, ◌^◌, ◌++◌, [], ◌∷◌, length, Err, OnOk, IfOk, IfErr, option_map};
ghost use Rattle.ct_streams.specs.Streams.{FailsOnce};
ghost use Rattle.ct_records.specs.Outcome.{IsOutcome};
ghost use Rattle.ct_records.specs.Text.{record_text};
ghost use Rattle.ct_walk.specs.Options.{IsInRange};
ghost use Rattle.ct_walk.specs.Walking.{walked};
ghost use Rattle.ct_walk.specs.Writing.{missed_by, IsWalkOf, Misses, WritesWalk, WritesWalkPart};

use crate::fault::WalkFault;
use crate::missed::Missed;
use crate::options::WalkOptions;
use crate::sight::sight_in;
use crate::walking::walk_near;
use ct_grammar::Goal;
use ct_records::record_line;
use ct_streams::{Failed, Sink, write_all};
use ct_world::World;
use std::alloc::Global;

/// Makes the walk of the options, until it shows the goal, where there is one, and writes its record and a line feed; answers how many
/// steps it has.
pub fn write_walk<W: Sink>(
    alloc: Global,
    options: &WalkOptions,
    until: Option<&Goal>,
    writer: &mut W,
) -> Result<usize, WalkFault>
    requires range { IsInRange options.now }
    requires writes { W.failures writer.old < 2 ^ 63 }
    // What was written is the record of the walk, a run that ends in a safe state, and a line feed.
    ensures ok { OnOk result
        (WritesWalk options.now (option_map (λ goal. goal.now) until.entry) (W.written writer.old) (W.written writer.new)) }
    ensures steps { IfOk result (λ steps. steps ≡ length (walked options.now (option_map (λ goal. goal.now) until.entry)).steps) }
    // Nothing is written of a walk that doesn't show what it is made until; the fault tells how near it came.
    ensures misses { IfErr result (Misses options.now (option_map (λ goal. goal.now) until.entry)) }
    // Only a fault of the writer has written anything: some first bytes of such a line.
    ensures quiet { IfErr result (λ fault. fault ≢ WalkFault.Write → writer.new ≡ writer.old) }
    ensures part { result ≡ Err WalkFault.Write →
        WritesWalkPart options.now (option_map (λ goal. goal.now) until.entry) (W.written writer.old) (W.written writer.new) }
    ensures writer { FailsOnce result WalkFault.Write (W.failures writer.old) (W.failures writer.new) }
{
    let world = reached(alloc, options, until)?;
    let text = line_of(alloc, &world)?;
    match write_all(writer, &text) {
        Ok(()) => Ok(world.record().len()),
        Err(Failed) => Err(WalkFault::Write),
    }
}

// The walk, which shows what it is made until.
fn reached(alloc: Global, options: &WalkOptions, until: Option<&Goal>) -> Result<World, WalkFault>
    requires { IsInRange options.now }
    ensures walk { IfOk result (λ world. IsWalkOf options.now (option_map (λ goal. goal.now) until.entry) world.rehearsal) }
    ensures misses { IfErr result (Misses options.now (option_map (λ goal. goal.now) until.entry)) }
    ensures quiet { IfErr result (λ fault. fault ≢ WalkFault.Write) }
{
    let walk = walk_near(alloc, options, until)?;
    if until.is_some() && !walk.shows {
        return Err(WalkFault::NotFound(missed(options, until, walk.came_to)));
    }
    Ok(walk.world)
}

// What is told of the walk, which came to so much.
fn missed(options: &WalkOptions, until: Option<&Goal>, came_to: u32) -> Missed
    ensures { result ≡ record (missed_by options.now (option_map (λ goal. goal.now) until.entry)) { came_to = came_to } }
{
    Missed {
        sight: sight_in(until),
        seed: options.run.seed,
        came_to,
    }
}

// The world's record and a line feed.
fn line_of(alloc: Global, world: &World) -> Result<Vec<u8>, WalkFault>
    ensures ok { IfOk result (λ text. text.items ≡ record_text world.now.rehearsal ++ 10 ∷ []) }
    ensures outcome { OnOk result (IsOutcome world.now.rehearsal) }
    ensures err { IfErr result (λ fault. fault ≡ WalkFault.Memory) }
{
    // For its clauses: the record is a run, and the state is safe.
    let _ = world.record();
    Ok(record_line(alloc, world)?)
}
