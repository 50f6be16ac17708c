//! What is found, written.

ghost use Rattle.std.specs.Prelude.{◌≡◌, ◌≢◌, ◌<◌, ◌^◌, Err, OnOk, IfOk, IfErr, Some};
ghost use Rattle.ct_streams.specs.Streams.{FailsOnce};
ghost use Rattle.ct_walk.specs.declared.fault.WalkFault.TheVariants as walk;
ghost use Rattle.ct_find.specs.Line.{IsFindInRange};
ghost use Rattle.ct_find.specs.Writing.{seed_for, FindsNothing, Repeats, WritesFound, WritesFoundPart};

use crate::again::Again;
use crate::call::FindCall;
use crate::fault::{FindFault, NotFound};
use crate::found_seed::FoundSeed;
use crate::progress::Progress;
use crate::quoting::quoted_goal;
use crate::searching::{find_in_threads, jobs_or_all};
use ct_streams::Sink;
use ct_walk::write_walk;
use std::alloc::Global;
use std::thread::Threads;

/// What is told of a walk that is found.
#[derive(Drop)]
pub struct Found {
    /// Its seed, and how many steps it has.
    pub seed: FoundSeed,
    /// The words that make it again.
    pub again: Again,
}

/// Looks for the first of the seeds whose walk shows the goal, and writes the record of that walk and a line feed.
pub fn write_found<R: Threads + Sync, W: Sink, P: Progress>(
    rt: &R,
    alloc: Global,
    call: FindCall,
    writer: &mut W,
    progress: &mut P,
) -> Result<Found, FindFault>
    requires range { IsFindInRange call }
    requires writes { W.failures writer.old < 2 ^ 63 }
    // What was written is the record of the walk that is looked for, a run that ends in a safe state, and a line feed.
    ensures ok { OnOk result (WritesFound call (W.written writer.old) (W.written writer.new)) }
    ensures seed { IfOk result (λ found. Some found.seed ≡ seed_for call) }
    ensures again { IfOk result (λ found. Repeats call found.seed.seed found.again) }
    // Nothing is found where no seed's walk shows the goal; the fault names the seeds and the goal. Other faults are those of memory, of
    // the board and of the writer.
    ensures none { IfErr result (FindsNothing call) }
    // Only a fault of the writer has written anything: some first bytes of such a line.
    ensures quiet { IfErr result (λ fault. fault ≢ FindFault.Walk walk.Write → writer.new ≡ writer.old) }
    ensures part { result ≡ Err (FindFault.Walk walk.Write) →
        WritesFoundPart call (W.written writer.old) (W.written writer.new) }
    ensures writer { FailsOnce result (FindFault.Walk walk.Write) (W.failures writer.old) (W.failures writer.new) }
{
    let FindCall {
        options,
        goal,
        text,
        seeds,
        jobs,
    } = call;
    let jobs = jobs_or_all(rt, jobs);
    let Some(seed) = find_in_threads(rt, alloc, &options, &goal, seeds, jobs, progress)? else {
        return Err(FindFault::NotFound(NotFound { seeds, goal: text }));
    };
    let words = quoted_goal(alloc, &text)?;
    let steps = match write_walk(alloc, &options.with_seed(seed), Some(&goal), writer) {
        Ok(steps) => steps,
        Err(fault) => return Err(FindFault::Walk(fault)),
    };
    Ok(Found {
        seed: FoundSeed { seed, steps },
        again: Again {
            options,
            seed,
            goal: words,
        },
    })
}
