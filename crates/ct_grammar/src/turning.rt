//! Turns, in words.

ghost use Rattle.std.specs.Prelude.{◌≡◌, IfOk, map};
ghost use Rattle.ct_grammar.specs.Turns.{suspected, set_alone, lone_suspected, counted, behind_until, watched, until_of, says_until};
ghost use Rattle.ct_grammar.specs.Turns.{turns_of, settle_of};
ghost use Rattle.ct_grammar.specs.Unfits.{map_ok};

use crate::goals::goal;
use crate::leading::{over, set_first, whole_first};
use crate::misfit::{Misfit, misfit_of, told};
use crate::play::Play;
use crate::unfit::Unfit;
use crate::wanted::Wanted;
use crate::who::Who;
use ct_names::MemberSet;
use std::alloc::{AllocError, Global};

// The members that are suspected, and the words behind them.
#[tactic(auto, unfolding(crate::specs::Turns::suspected))]
fn suspected<'w, 'a>(words: &'w [&'a str]) -> Result<(MemberSet, &'w [&'a str]), Unfit>
    ensures { map_ok (λ r. (r.0, map (λ word. word.now) r.1.now)) result ≡ suspected (map (λ word. word.now) words.now) }
{
    match words {
        [] => Ok((MemberSet::new(), words)),
        [word, rest @ ..] => match *word {
            "suspecting" => set_first(rest),
            _ => Ok((MemberSet::new(), words)),
        },
    }
}

// A set of members, alone.
#[tactic(auto, unfolding(crate::specs::Turns::set_alone))]
fn set_alone(words: &[&str]) -> Result<MemberSet, Unfit>
    ensures { result ≡ set_alone (map (λ word. word.now) words.now) }
{
    match set_first(words) {
        Ok((set, rest)) => {
            over(rest, Wanted::Nothing)?;
            Ok(set)
        }
        Err(unfit) => Err(unfit),
    }
}

// The members that are suspected, where nothing stands behind them.
#[tactic(auto, unfolding(crate::specs::Turns::lone_suspected))]
fn lone_suspected(words: &[&str]) -> Result<MemberSet, Unfit>
    ensures { result ≡ lone_suspected (map (λ word. word.now) words.now) }
{
    let [word, rest @ ..] = words else {
        return Ok(MemberSet::new());
    };
    if *word == "suspecting" {
        set_alone(rest)
    } else {
        Err(Unfit::before(rest, Wanted::Suspecting))
    }
}

// So many rounds of turns.
#[tactic(auto, unfolding(crate::specs::Turns::counted))]
fn counted(who: Who, words: &[&str]) -> Result<Play, Unfit>
    ensures { result ≡ counted who (map (λ word. word.now) words.now) }
{
    let (n, rest) = whole_first(words, Wanted::Rounds)?;
    Ok(Play::Turns(who, n, lone_suspected(rest)?))
}

// The words behind `until`.
#[tactic(auto, unfolding(crate::specs::Turns::behind_until))]
fn behind_until<'w, 'a>(words: &'w [&'a str]) -> Result<&'w [&'a str], Unfit>
    ensures { map_ok (λ r. map (λ word. word.now) r.now) result ≡ behind_until (map (λ word. word.now) words.now) }
{
    match words {
        [] => Err(Unfit::End(Wanted::Until)),
        [word, rest @ ..] => {
            if *word == "until" {
                Ok(rest)
            } else {
                Err(Unfit::before(rest, Wanted::Until))
            }
        }
    }
}

// The members that are suspected, and the words behind `until`.
#[tactic(auto, unfolding(crate::specs::Turns::watched))]
fn watched<'w, 'a>(words: &'w [&'a str]) -> Result<(MemberSet, &'w [&'a str]), Unfit>
    ensures { map_ok (λ r. (r.0, map (λ word. word.now) r.1.now)) result ≡ watched (map (λ word. word.now) words.now) }
{
    match suspected(words) {
        Ok((set, rest)) => match behind_until(rest) {
            Ok(goal) => Ok((set, goal)),
            Err(unfit) => Err(unfit),
        },
        Err(unfit) => Err(unfit),
    }
}

// Turns until a goal holds.
#[tactic(auto, unfolding(crate::specs::Turns::until_of))]
fn until(alloc: Global, who: Who, words: &[&str]) -> Result<Result<Play, Misfit>, AllocError>
    ensures { IfOk result (λ play. play ≡ until_of who (map (λ word. word.now) words.now)) }
{
    match watched(words) {
        Ok((set, rest)) => match goal(alloc, rest)? {
            Ok(goal) => Ok(Ok(Play::Until(who, set, goal))),
            Err(misfit) => Ok(Err(misfit)),
        },
        Err(unfit) => Ok(Err(misfit_of(alloc, words, unfit)?)),
    }
}

// Whether `suspecting` or `until` stands first.
#[tactic(auto, unfolding(crate::specs::Turns::says_until))]
fn says_until(words: &[&str]) -> bool
    ensures { result ≡ says_until (map (λ word. word.now) words.now) }
{
    match words {
        [] => false,
        [word, ..] => *word == "suspecting" || *word == "until",
    }
}

/// What stands behind `turns`: how many rounds, or until when.
#[tactic(auto, unfolding(crate::specs::Turns::turns_of))]
pub(crate) fn turns(
    alloc: Global,
    who: Who,
    words: &[&str],
) -> Result<Result<Play, Misfit>, AllocError>
    ensures { IfOk result (λ play. play ≡ turns_of who (map (λ word. word.now) words.now)) }
{
    if says_until(words) {
        until(alloc, who, words)
    } else {
        told(alloc, words, counted(who, words))
    }
}

/// What stands behind `settle`.
#[tactic(auto, unfolding(crate::specs::Turns::settle_of))]
pub(crate) fn settle(who: Who, words: &[&str]) -> Result<Play, Unfit>
    ensures { result ≡ settle_of who (map (λ word. word.now) words.now) }
{
    Ok(Play::Settle(who, lone_suspected(words)?))
}
