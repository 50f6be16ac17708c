//! Cuts, in words.

ghost use Rattle.std.specs.Prelude.{◌≡◌, map};
ghost use Rattle.ct_grammar.specs.Cuts.{with_sets, cut_of};
ghost use Rattle.ct_grammar.specs.Sides.{part_before, with_set};
ghost use Rattle.ct_grammar.specs.Numbers.{parted};

use crate::numbers::{member, parted};
use crate::sides::Sides;
use crate::unfit::Unfit;
use crate::wanted::Wanted;

// The part before the first comma.
fn first_part(word: &[u8]) -> &[u8]
    ensures { result.now ≡ part_before word.now (parted 44 word.now) }
{
    match parted(word, b',') {
        Some((part, _)) => part,
        None => word,
    }
}

// The sides, where also the members of one more set are on one.
#[tactic(auto, unfolding(crate::specs::Sides::with_set))]
fn with_set(sides: Sides, set: &[u8]) -> Option<Sides>
    ensures { result ≡ with_set sides set.now }
{
    let side = member(first_part(set))?;
    let mut sides = sides;
    let mut rest = set;
    while let Some((part, behind)) = parted(rest, b',') {
        sides = sides.with(member(part)?, side)?;
        rest = behind;
    }
    sides.with(member(rest)?, side)
}

// The sides, where also the members of each set are on one.
fn with_sets(sides: Sides, words: &[&str]) -> Result<Sides, Unfit>
    ensures { result ≡ with_sets sides (map (λ word. word.now) words.now) }
{
    let [set, rest @ ..] = words else {
        return Err(Unfit::End(Wanted::Side));
    };
    let Some(sides) = with_set(sides, set.as_bytes()) else {
        return Err(Unfit::before(rest, Wanted::Side));
    };
    match rest {
        [] => Ok(sides),
        [bar, behind @ ..] => {
            if *bar == "|" {
                with_sets(sides, behind)
            } else {
                Err(Unfit::before(behind, Wanted::Bar))
            }
        }
    }
}

/// The sides of a cut: sets of members, with a bar between each two.
#[tactic(auto, unfolding(crate::specs::Cuts::cut_of))]
pub(crate) fn cut(words: &[&str]) -> Result<Sides, Unfit>
    ensures { result ≡ cut_of (map (λ word. word.now) words.now) }
{
    with_sets(Sides::whole(), words)
}
