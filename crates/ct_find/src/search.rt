//! What is looked for.

ghost use Rattle.std.specs.Prelude.{◌≡◌};
ghost use Rattle.ct_find.specs.Searching.{asked, is_enough};

use crate::hit::Hit;
use ct_grammar::Goal;
use ct_walk::WalkOptions;

// What is looked for, and in which walks.
#[derive(Clone, Copy, Drop)]
pub(crate) struct Search<'a> {
    // The options of the walks but for their seed.
    pub(crate) options: &'a WalkOptions,
    // What a walk has to show.
    pub(crate) goal: &'a Goal,
    // Which of the seeds whose walks show it are asked for.
    pub(crate) which: Which,
}

// Which seeds are asked for.
#[derive(Clone, Copy, Debug, Drop, PartialEq, Eq)]
pub(crate) enum Which {
    // So many of the first ones.
    First(u32),
    // Each one.
    All,
}

impl Which {
    // Whether no more are asked for than these.
    pub(crate) fn is_enough(self, hits: &[Hit]) -> bool
        ensures { result ≡ is_enough self hits.now }
    {
        match self {
            Which::First(count) => hits.len() >= count as usize,
            Which::All => false,
        }
    }

    // Those of these that are asked for.
    pub(crate) fn cut(self, hits: Vec<Hit>) -> Vec<Hit>
        ensures { result.items ≡ asked self hits.items }
    {
        let mut hits = hits;
        if let Which::First(count) = self {
            hits.truncate(count as usize);
        }
        hits
    }
}
