//! How many seeds show what is looked for.

ghost use Rattle.std.specs.Prelude.{◌≡◌, ◌≤◌, ◌^◌, length, IfOk};
ghost use Rattle.ct_walk.specs.Finding.{seeds_to};
ghost use Rattle.ct_walk.specs.Line.{IsSeedsInRange};
ghost use Rattle.ct_find.specs.Tallies.{IsTally};

use crate::hit::Hit;
use crate::spread::{Spread, spread_of};
use crate::tried::count;
use ct_walk::Seeds;
use std::alloc::{AllocError, Global};

// What a share is a part of, in which it is told.
const WHOLE: u64 = 1000;

/// How many of the seeds have walks that show the goal, and how far those walks go.
#[derive(Clone, Copy, Debug, Drop, PartialEq, Eq)]
pub struct Tally {
    /// The seeds.
    pub seeds: Seeds,
    /// How many they are.
    pub tried: u64,
    /// How many of them have walks that show it.
    pub shown: u64,
    /// How many of 1000 seeds that is, cut to a whole number.
    pub share: u64,
    /// How the numbers of steps of these walks are spread.
    pub steps: Option<Spread>,
    /// How their largest rounds are spread.
    pub rounds: Option<Spread>,
}

// The tally of the seeds, whose hits these are.
pub(crate) fn tally_of(alloc: Global, seeds: Seeds, hits: &[Hit]) -> Result<Tally, AllocError>
    requires some { IsSeedsInRange seeds }
    requires few { length hits.now ≤ seeds_to seeds.first seeds.last }
    ensures { IfOk result (IsTally seeds hits.now) }
{
    let tried = count(seeds.first, seeds.last);
    let shown = hits.len() as u64;
    let steps = hits.iter().map(|hit| hit.size.steps as u64).collect(alloc)?;
    let rounds = hits
        .iter()
        .map(|hit| u64::from(hit.size.round))
        .collect(alloc)?;
    Ok(Tally {
        seeds,
        tried,
        shown,
        share: shown * WHOLE / tried,
        steps: spread_of(steps),
        rounds: spread_of(rounds),
    })
}
