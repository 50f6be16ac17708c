//! The first walks that show what is looked for.

ghost use Rattle.std.specs.Prelude.{◌≡◌, IfOk, IfErr};
ghost use Rattle.ct_walk.specs.Faults.{IsShort};
ghost use Rattle.ct_find.specs.Line.{IsFindInRange};
ghost use Rattle.ct_find.specs.Writing.{first_hits};

use crate::call::FindCall;
use crate::hit::Hit;
use crate::progress::Progress;
use crate::search::{Search, Which};
use crate::searching::{hits_in_threads, jobs_or_all};
use ct_walk::WalkFault;
use std::alloc::Global;
use std::thread::Threads;

/// The first so many of the seeds whose walks show the goal, in their order; all of them where they are fewer.
pub fn first_hits<R: Threads + Sync, P: Progress>(
    rt: &R,
    alloc: Global,
    call: &FindCall,
    count: u32,
    progress: &mut P,
) -> Result<Vec<Hit>, WalkFault>
    requires { IsFindInRange call.now }
    ensures hits { IfOk result (λ hits. hits.items ≡ first_hits call.now count) }
    ensures err { IfErr result IsShort }
{
    let search = Search {
        options: &call.options,
        goal: &call.goal,
        which: Which::First(count),
    };
    let jobs = jobs_or_all(rt, call.jobs);
    hits_in_threads(rt, alloc, search, call.seeds, jobs, progress)
}
