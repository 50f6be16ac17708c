//! Seeds, looked through in threads.

ghost use Rattle.std.specs.Prelude.{◌≡◌, ◌+◌, ◌-◌, ◌*◌, ◌^◌, ◌<◌, ◌≤◌, ◌++◌, vec_len};
ghost use Rattle.std.specs.Prelude.{IfOk, IfErr, IfSome, IfNone, OnOk, option_map, slice_get};
ghost use Rattle.ct_walk.specs.Faults.{IsShort};
ghost use Rattle.ct_walk.specs.Finding.{first_of};
ghost use Rattle.ct_walk.specs.Line.{IsSeedsInRange};
ghost use Rattle.ct_walk.specs.Options.{IsInRange};
ghost use Rattle.ct_find.specs.declared.searching.TheConstants.{TURNS_EACH};
ghost use Rattle.ct_find.specs.Hits.{hits_from, hits_of};
ghost use Rattle.ct_find.specs.Searching.{asked, hit_at, part_of};

use crate::hit::Hit;
use crate::progress::Progress;
use crate::search::{Search, Which};
use ct_grammar::Goal;
use ct_walk::{Seeds, WalkFault, WalkOptions, WalkSize, size_if_shown};
use std::alloc::Global;
use std::thread::{self, Threads};

// How many seeds each thread tries at first.
const SEEDS_FIRST: u64 = 16;

// How many turns a thread makes at a time at most, in walks of several seeds; one walk may have more.
const TURNS_EACH: u64 = 1_048_576;

// How many milliseconds a block is to take at most, where somebody waits for the next one: so a line can be told each second.
const BLOCK_MILLIS: u64 = 500;

// How many threads there are at most.
pub(crate) const MAX_JOBS: u8 = 64;

// How many threads there are for a processor, where no number is asked for: their parts of a block take unlike times, and more of
// them even that out.
const JOBS_A_CORE: usize = 4;

/// The first of the seeds whose walk shows the goal: so many threads try as many parts of the seeds at a time, and after each
/// of these blocks the seeds that were tried are told. The answer is the same for every number of threads.
pub fn find_in_threads<R: Threads + Sync, P: Progress>(
    rt: &R,
    alloc: Global,
    options: &WalkOptions,
    goal: &Goal,
    seeds: Seeds,
    jobs: u8,
    progress: &mut P,
) -> Result<Option<u32>, WalkFault>
    requires range { IsInRange options.now }
    requires some { IsSeedsInRange seeds }
    requires jobs { 0 < jobs }
    ensures found { IfOk result (λ found. found ≡ first_of options.now goal.now seeds) }
    ensures err { IfErr result IsShort }
{
    let search = Search {
        options,
        goal,
        which: Which::First(1),
    };
    let hits = hits_in_threads(rt, alloc, search, seeds, jobs, progress)?;
    Ok(first_of(&hits))
}

// The first one's seed.
fn first_of(hits: &[Hit]) -> Option<u32>
    ensures { result ≡ option_map (λ hit. hit.seed) (slice_get hits.now 0) }
{
    hits.first().map(|hit| hit.seed)
}

// The seeds that are asked for, of those whose walks show the goal.
pub(crate) fn hits_in_threads<R: Threads + Sync, P: Progress>(
    rt: &R,
    alloc: Global,
    search: Search<'_>,
    seeds: Seeds,
    jobs: u8,
    progress: &mut P,
) -> Result<Vec<Hit>, WalkFault>
    requires range { IsInRange search.options.now }
    requires some { IsSeedsInRange seeds }
    requires jobs { 0 < jobs }
    ensures hits { IfOk result (λ hits. hits.items
        ≡ asked search.entry.which (hits_of search.entry.options.now search.entry.goal.now seeds)) }
    ensures err { IfErr result IsShort }
{
    let end = u64::from(seeds.last) + 1;
    let mut hits = Vec::new(alloc);
    let mut next = u64::from(seeds.first);
    let mut timely = TURNS_EACH;
    while next < end {
        let tried = next.saturating_sub(u64::from(seeds.first));
        let each = seeds_each(search.options, tried, end - next, jobs, timely);
        let block = seeds_in_block(jobs, each);
        let stop = end.min(next + block);
        let more = hits_in_block(rt, alloc, search, next, stop, each, usize::from(jobs))?;
        hits.extend_from_slice(&more)?;
        if search.which.is_enough(&hits) {
            return Ok(search.which.cut(hits));
        }
        timely = seeds_in_time(each, progress.tell((stop - 1) as u32, hits.len()));
        next += block;
    }
    Ok(search.which.cut(hits))
}

// How many seeds each thread tries next, where so many were tried and so many are left: half as many as it tried before, and
// some more; no more than have `TURNS_EACH` turns together, than are timely, or than its share of what is left, and one at least. So
// little is tried in vain beside a seed that is found soon, and threads seldom wait for one another.
fn seeds_each(options: &WalkOptions, tried: u64, left: u64, jobs: u8, timely: u64) -> u64
    requires jobs { 0 < jobs }
    ensures some { 0 < result }
    ensures few { result ≤ TURNS_EACH }
{
    let turns = u64::from(options.run.members) * u64::from(options.run.turns);
    let most = TURNS_EACH / turns.max(1);
    let soon = SEEDS_FIRST.saturating_add(tried / 2 / u64::from(jobs));
    let share = left.div_ceil(u64::from(jobs));
    most.min(soon).min(timely).min(share).max(1)
}

// How many seeds each thread tries in `BLOCK_MILLIS`, where so many took it so long; nothing bounds them where nobody waits.
fn seeds_in_time(each: u64, millis: Option<u64>) -> u64
    requires few { each ≤ TURNS_EACH }
{
    match millis {
        Some(millis) => each * BLOCK_MILLIS / millis.max(1),
        None => TURNS_EACH,
    }
}

// How many seeds all threads try together.
#[tactic(auto, using(crate::proofs::Blocks::block_some, crate::proofs::Blocks::block_few))]
fn seeds_in_block(jobs: u8, each: u64) -> u64
    requires jobs { 0 < jobs }
    requires some { 0 < each }
    requires few { each ≤ TURNS_EACH }
    ensures value { result ≡ jobs * each }
    ensures some { 0 < result }
    ensures few { result < 2 ^ 32 }
{
    u64::from(jobs) * each
}

// Those from this seed on, below the end: each part, of so many seeds, in a thread of its own.
#[tactic(auto, using(crate::proofs::Blocks::part_fits))]
fn hits_in_block<R: Threads + Sync>(
    rt: &R,
    alloc: Global,
    search: Search<'_>,
    first: u64,
    end: u64,
    each: u64,
    parts: usize,
) -> Result<Vec<Hit>, WalkFault>
    requires range { IsInRange search.options.now }
    requires end { end ≤ 2 ^ 32 }
    requires first { first ≤ end }
    requires parts { parts < 256 }
    requires few { parts * each < 2 ^ 32 }
    requires all { end ≤ first + parts * each }
    ensures hits { IfOk result (λ hits. hits.items
        ≡ asked search.entry.which (hits_from search.entry.options.now search.entry.goal.now first (end - first))) }
    ensures err { IfErr result IsShort }
{
    let Search {
        options,
        goal,
        which,
    } = search;
    let part = move |i: usize| -> Result<Vec<Hit>, WalkFault>
        requires { IsInRange options.now × (end ≤ 2 ^ 32) × (each < 2 ^ 32) × (i * each < 2 ^ 32) × (first < 2 ^ 33) }
        ensures { IfOk result (λ hits. hits.items ≡ part_of which options.entry.now goal.entry.now (first + i * each) each end)
            × IfErr result IsShort }
    {
        let search = Search {
            options,
            goal,
            which,
        };
        hits_in_part(alloc, search, first + i as u64 * each, each, end)
    };
    let all = thread::map_indices(rt, alloc, parts, &part)?;
    let mut hits = Vec::new(alloc);
    for i in 0..parts {
        match &all[i] {
            Ok(more) => hits.extend_from_slice(more)?,
            Err(fault) => return Err(*fault),
        }
        if which.is_enough(&hits) {
            return Ok(which.cut(hits));
        }
    }
    Ok(which.cut(hits))
}

// Those of a part of so many seeds, from this one on, below the end.
fn hits_in_part(
    alloc: Global,
    search: Search<'_>,
    first: u64,
    each: u64,
    end: u64,
) -> Result<Vec<Hit>, WalkFault>
    requires range { IsInRange search.options.now }
    requires end { end ≤ 2 ^ 32 }
    requires first { first < 2 ^ 34 }
    requires few { each < 2 ^ 32 }
    ensures hits { IfOk result (λ hits. hits.items
        ≡ part_of search.entry.which search.entry.options.now search.entry.goal.now first each end) }
    ensures err { IfErr result IsShort }
{
    let stop = end.min(first + each);
    let mut hits = Vec::new(alloc);
    for next in first..stop {
        let seed = next as u32;
        let size = size_if_shown(alloc, search.options, search.goal, seed)?;
        push_hit(&mut hits, seed, size)?;
        if search.which.is_enough(&hits) {
            return Ok(search.which.cut(hits));
        }
    }
    Ok(search.which.cut(hits))
}

// Puts the seed behind the hits, where its walk shows the goal and goes so far.
fn push_hit(hits: &mut Vec<Hit>, seed: u32, size: Option<WalkSize>) -> Result<(), WalkFault>
    ensures ok { OnOk result (hits.new.items ≡ hits.old.items ++ hit_at seed size) }
    ensures err { IfErr result IsShort }
{
    let Some(size) = size else {
        return Ok(());
    };
    match hits.push(Hit { seed, size }) {
        Ok(()) => Ok(()),
        Err(_) => Err(WalkFault::Memory),
    }
}

// So many threads, or `JOBS_A_CORE` for each processor, but no more than `MAX_JOBS`.
pub(crate) fn jobs_or_all<R: Threads>(rt: &R, jobs: Option<u8>) -> u8
    ensures given { IfSome jobs (λ jobs. 0 < jobs → result ≡ jobs) }
    ensures some { 0 < result }
    ensures few { IfNone jobs (result ≤ 64) }
{
    if let Some(jobs) = jobs
        && jobs > 0
    {
        return jobs;
    }
    match thread::available_parallelism(rt) {
        Ok(cores) => cores
            .get()
            .saturating_mul(JOBS_A_CORE)
            .min(usize::from(MAX_JOBS)) as u8,
        Err(_) => 1,
    }
}
