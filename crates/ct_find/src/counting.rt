//! Seeds, counted in threads.

ghost use Rattle.std.specs.Prelude.{◌<◌, IfOk, IfErr};
ghost use Rattle.ct_walk.specs.Faults.{IsShort};
ghost use Rattle.ct_walk.specs.Line.{IsSeedsInRange};
ghost use Rattle.ct_walk.specs.Options.{IsInRange};
ghost use Rattle.ct_find.specs.Tallies.{IsTallyOf};

use crate::progress::Progress;
use crate::search::{Search, Which};
use crate::searching::hits_in_threads;
use crate::tally::{Tally, tally_of};
use ct_grammar::Goal;
use ct_walk::{Seeds, WalkFault, WalkOptions};
use std::alloc::Global;
use std::thread::Threads;

/// How many of the seeds have walks that show the goal, and how far those walks go: the seeds are tried as by
/// `find_in_threads`, all of them. The answer is the same for every number of threads.
pub fn count_in_threads<R: Threads + Sync, P: Progress>(
    rt: &R,
    alloc: Global,
    options: &WalkOptions,
    goal: &Goal,
    seeds: Seeds,
    jobs: u8,
    progress: &mut P,
) -> Result<Tally, WalkFault>
    requires range { IsInRange options.now }
    requires some { IsSeedsInRange seeds }
    requires jobs { 0 < jobs }
    ensures tally { IfOk result (IsTallyOf options.now goal.now seeds) }
    ensures err { IfErr result IsShort }
{
    let search = Search {
        options,
        goal,
        which: Which::All,
    };
    let hits = hits_in_threads(rt, alloc, search, seeds, jobs, progress)?;
    Ok(tally_of(alloc, seeds, &hits)?)
}
