//! The smallest of the runs that are left of several walks, written.

ghost use Rattle.std.specs.Prelude.{◌≡◌, ◌≢◌, ◌<◌, ◌^◌, Err, IfOk, IfErr};
ghost use Rattle.ct_streams.specs.Streams.{FailsOnce};
ghost use Rattle.ct_walk.specs.declared.fault.WalkFault.TheVariants as walk;
ghost use Rattle.ct_best.specs.Best.{AreTold, FindsNoBest, IsSmallest, WritesRun, WritesRunPart};
ghost use Rattle.ct_find.specs.Line.{IsFindInRange};
ghost use Rattle.ct_find.specs.Writing.{Repeats};

use crate::best::{Best, BestOptions};
use crate::fault::BestFault;
use crate::shrinking::{Left, best_of};
use ct_find::{Again, FindCall, NotFound, Progress, first_hits, quoted_goal};
use ct_shrink::Progress as TrialProgress;
use ct_streams::{Failed, Sink, write_all};
use ct_walk::WalkFault;
use std::alloc::Global;
use std::thread::Threads;

/// Looks for the first so many of the seeds whose walks show the goal, makes each of these walks smaller, and writes the smallest run;
/// of equals that of the least seed. Where fewer of the seeds' walks show the goal, these are all.
pub fn write_best<R: Threads + Sync, W: Sink, P: Progress, T: TrialProgress>(
    rt: &R,
    alloc: Global,
    call: FindCall,
    best: &BestOptions,
    writer: &mut W,
    progress: &mut P,
    trials: &mut T,
) -> Result<Best, BestFault>
    requires range { IsFindInRange call }
    requires some { 0 < best.now.count }
    requires writes { W.failures writer.old < 2 ^ 63 }
    // Of the walk of each of these seeds a smaller run is left, as `ct_shrink` makes it, of which this is told.
    ensures walks { IfOk result (λ told. AreTold call best.now told.walks.items) }
    // None that is told has fewer steps than the smallest, and none before it as many.
    ensures smallest { IfOk result (λ told. IsSmallest told.walks.items told.smallest) }
    // That one was written.
    ensures ok { IfOk result (λ told. WritesRun call best.now told.smallest (W.written writer.old) (W.written writer.new)) }
    ensures again { IfOk result (λ told. Repeats call told.smallest.seed told.again) }
    // Nothing is found where no seed's walk shows the goal; the fault names the seeds and the goal. Other faults are those of memory, of
    // the board, of the writer and of a walk that isn't made smaller.
    ensures none { IfErr result (FindsNoBest call best.now) }
    // Only a fault of the writer has written anything: some first bytes of such a run.
    ensures quiet { IfErr result (λ fault. fault ≢ BestFault.Walk walk.Write → writer.new ≡ writer.old) }
    ensures part { result ≡ Err (BestFault.Walk walk.Write) →
        WritesRunPart call best.now (W.written writer.old) (W.written writer.new) }
    ensures writer { FailsOnce result (BestFault.Walk walk.Write) (W.failures writer.old) (W.failures writer.new) }
{
    let hits = first_hits(rt, alloc, &call, best.count, progress)?;
    let FindCall {
        options,
        goal,
        text,
        seeds,
        ..
    } = call;
    let made = best_of(alloc, &options, &goal, &hits, &best.shrink, trials)?;
    let (walks, smallest) = made;
    let Some(left) = smallest else {
        return Err(BestFault::NotFound(NotFound { seeds, goal: text }));
    };
    let words = quoted_goal(alloc, &text)?;
    let Left { walk, text } = left;
    match write_all(writer, &text) {
        Ok(()) => Ok(Best {
            walks,
            smallest: walk,
            again: Again {
                options,
                seed: walk.seed,
                goal: words,
            },
        }),
        Err(Failed) => Err(BestFault::Walk(WalkFault::Write)),
    }
}
