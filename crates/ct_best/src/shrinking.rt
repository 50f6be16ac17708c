//! Walks that show what is looked for, made smaller.

ghost use Rattle.std.specs.Prelude.{◌≡◌, ◌≢◌, ◌++◌, ◌∷◌, [], OnOk, IfOk, IfErr, Some, option_map};
ghost use Rattle.std.specs.List.{AllZip};
ghost use Rattle.ct_records.specs.View.{rehearsal_of};
ghost use Rattle.ct_walk.specs.declared.fault.WalkFault.TheVariants as walk;
ghost use Rattle.ct_walk.specs.Faults.{IsShort};
ghost use Rattle.ct_walk.specs.Options.{IsInRange, with_seed};
ghost use Rattle.ct_walk.specs.Walking.{walked};
ghost use Rattle.ct_best.specs.Best.{run_of, smaller_of, FailsOn, FailsOnOne, IsBest, IsLeftOf, IsToldOf};

use crate::fault::BestFault;
use crate::smaller_walk::SmallerWalk;
use ct_find::Hit;
use ct_grammar::Goal;
use ct_records::Script;
use ct_shrink::{Progress, ShrinkOptions, SmallerRun};
use ct_walk::{WalkFault, WalkOptions};
use std::alloc::Global;

// What is left of the walks of these seeds: what is told of each, and the smallest run; None where there are none. Somebody is told after
// each trial.
pub(crate) fn best_of<P: Progress>(
    alloc: Global,
    options: &WalkOptions,
    goal: &Goal,
    hits: &[Hit],
    shrink: &ShrinkOptions,
    progress: &mut P,
) -> Result<(Vec<SmallerWalk>, Option<Left>), BestFault>
    requires { IsInRange options.now }
    ensures walks { IfOk result (λ made. AllZip (IsToldOf options.now goal.now shrink.now) hits.now made.0.items) }
    ensures best { IfOk result (λ made. IsBest options.now goal.now shrink.now made.0.items (option_map run_of made.1)) }
    ensures err { IfErr result (FailsOnOne options.now goal.now hits.now) }
    ensures unwritten { IfErr result (λ fault. fault ≢ BestFault.Walk walk.Write) }
{
    let mut walks = Vec::new(alloc);
    let mut best = None;
    for hit in hits {
        let left = left_of(alloc, options, goal, *hit, shrink, progress)?;
        push_walk(&mut walks, left.walk)?;
        best = Some(smaller_of(best, left));
    }
    Ok((walks, best))
}

// Puts the walk behind the others.
fn push_walk(walks: &mut Vec<SmallerWalk>, walk: SmallerWalk) -> Result<(), WalkFault>
    ensures ok { OnOk result (walks.new.items ≡ walks.old.items ++ walk ∷ []) }
    ensures err { IfErr result IsShort }
{
    match walks.push(walk) {
        Ok(()) => Ok(()),
        Err(_) => Err(WalkFault::Memory),
    }
}

// What is left of the walk of this seed.
fn left_of<P: Progress>(
    alloc: Global,
    options: &WalkOptions,
    goal: &Goal,
    hit: Hit,
    shrink: &ShrinkOptions,
    progress: &mut P,
) -> Result<Left, BestFault>
    requires { IsInRange options.now }
    ensures ok { IfOk result (λ left. IsLeftOf options.now goal.now shrink.now hit (run_of left)) }
    ensures err { IfErr result (FailsOn options.now goal.now hit) }
    ensures unwritten { IfErr result (λ fault. fault ≢ BestFault.Walk walk.Write) }
{
    let script = walked(alloc, options, goal, hit.seed)?;
    let smaller = ct_shrink::smaller_of(alloc, &script, goal, shrink, progress)?;
    let SmallerRun { text, summary } = smaller;
    Ok(Left {
        walk: SmallerWalk {
            seed: hit.seed,
            summary,
        },
        text,
    })
}

// The record of the walk of this seed, in place of the options' one, made until it shows the goal.
fn walked(alloc: Global, options: &WalkOptions, goal: &Goal, seed: u32) -> Result<Script, WalkFault>
    requires { IsInRange options.now }
    ensures ok { IfOk result (λ script. rehearsal_of script ≡ walked (with_seed options.now seed) (Some goal.now)) }
    ensures err { IfErr result IsShort }
{
    let mut options = *options;
    options.run.seed = seed;
    let world = ct_walk::walk(alloc, &options, Some(goal))?;
    let script = ct_shrink::script_of(alloc, &world);
    drop(world);
    Ok(script?)
}

// A run that is left of a walk: what is told of it, and its text.
#[derive(Drop)]
pub(crate) struct Left {
    pub(crate) walk: SmallerWalk,
    pub(crate) text: Vec<u8>,
}

// The smaller one of the two, where there are two.
fn smaller_of(best: Option<Left>, left: Left) -> Left
    ensures { run_of result ≡ smaller_of (option_map run_of best) (run_of left) }
{
    match best {
        None => left,
        Some(best) => {
            if left.walk.is_less(&best.walk) {
                left
            } else {
                best
            }
        }
    }
}
