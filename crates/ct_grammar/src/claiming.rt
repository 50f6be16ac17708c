//! What goals say of members, in words.

ghost use Rattle.std.specs.Prelude.{◌≡◌, IfOk, map};
ghost use Rattle.ct_grammar.specs.Claims.{extent_of, counted, at_least, one_instance, decided, in_order, before, delivered};
ghost use Rattle.ct_grammar.specs.Claims.{chosen, refused_choice, refused, word_alone, followed, lone_claim, step_claim, event_claim};
ghost use Rattle.ct_grammar.specs.Claims.{amount_claim, or_fact, claim_of};
ghost use Rattle.ct_grammar.specs.Unfits.{map_ok};
ghost use Rattle.ct_grammar.specs.declared.claim.Claim.{Claim};

use crate::claim::{Amount, Claim, Extent};
use crate::expecting::named_fact;
use crate::leading::{behind_term, lone_whole, number_first, over};
use crate::naming::reason;
use crate::numbers::{byte, number_in};
use crate::reason::Reason;
use crate::reports::name;
use crate::unfit::Unfit;
use crate::wanted::Wanted;
use std::alloc::{AllocError, Global};

// A number, or `>=` and a number, alone.
#[tactic(auto, unfolding(crate::specs::Claims::extent_of))]
fn extent(words: &[&str]) -> Result<Extent, Unfit>
    ensures { result ≡ extent_of (map (λ word. word.now) words.now) }
{
    let [word, rest @ ..] = words else {
        return Err(Unfit::End(Wanted::Extent));
    };
    if *word == ">=" {
        Ok(Extent::AtLeast(lone_whole(rest, Wanted::Count)?))
    } else {
        Ok(Extent::Exactly(lone_whole(words, Wanted::Extent)?))
    }
}

// The amount behind `count`.
#[tactic(auto, unfolding(crate::specs::Claims::counted))]
fn counted(amount: Amount, words: &[&str]) -> Option<Result<Claim, Unfit>>
    ensures { result ≡ counted amount (map (λ word. word.now) words.now) }
{
    let [word, rest @ ..] = words else {
        return None;
    };
    if *word != "count" {
        return None;
    }
    match extent(rest) {
        Ok(extent) => Some(Ok(Claim::Amount(amount, extent))),
        Err(unfit) => Some(Err(unfit)),
    }
}

// At least the number behind `>=`.
#[tactic(auto, unfolding(crate::specs::Claims::at_least))]
fn at_least(amount: Amount, words: &[&str]) -> Option<Result<Claim, Unfit>>
    ensures { result ≡ at_least amount (map (λ word. word.now) words.now) }
{
    let [word, rest @ ..] = words else {
        return None;
    };
    if *word != ">=" {
        return None;
    }
    match lone_whole(rest, Wanted::Count) {
        Ok(n) => Some(Ok(Claim::Amount(amount, Extent::AtLeast(n)))),
        Err(unfit) => Some(Err(unfit)),
    }
}

// An instance alone.
#[tactic(auto, unfolding(crate::specs::Claims::one_instance))]
fn one_instance(words: &[&str]) -> Option<u32>
    ensures { result ≡ one_instance (map (λ word. word.now) words.now) }
{
    let [word] = words else {
        return None;
    };
    let instance = number_in(word.as_bytes(), 1, u32::MAX as u64)?;
    Some(instance as u32)
}

// How many decisions it got, or the decision of an instance.
#[tactic(auto, unfolding(crate::specs::Claims::decided))]
fn decided(count: Option<Result<Claim, Unfit>>, words: &[&str]) -> Option<Result<Claim, Unfit>>
    ensures { result ≡ decided count (map (λ word. word.now) words.now) }
{
    match count {
        Some(count) => Some(count),
        None => Some(Ok(Claim::Got(one_instance(words)?))),
    }
}

// The two messages of these names, in this order.
#[tactic(auto, unfolding(crate::specs::Claims::in_order))]
fn in_order(first: &str, second: &str) -> Result<Claim, Unfit>
    ensures { result ≡ in_order first.now second.now }
{
    let Some(first) = name(first.as_bytes()) else {
        return Err(Unfit::Word(2, Wanted::Message));
    };
    let Some(second) = name(second.as_bytes()) else {
        return Err(Unfit::Word(0, Wanted::Message));
    };
    Ok(Claim::Before(first, second))
}

// A message before another.
#[tactic(auto, unfolding(crate::specs::Claims::before))]
fn before(words: &[&str]) -> Option<Result<Claim, Unfit>>
    ensures { result ≡ before (map (λ word. word.now) words.now) }
{
    match words {
        [first, middle, second] => {
            if *middle == "before" {
                Some(in_order(first, second))
            } else {
                None
            }
        }
        _ => None,
    }
}

// How many messages it delivered, or one before another.
#[tactic(auto, unfolding(crate::specs::Claims::delivered))]
fn delivered(count: Option<Result<Claim, Unfit>>, words: &[&str]) -> Option<Result<Claim, Unfit>>
    ensures { result ≡ delivered count (map (λ word. word.now) words.now) }
{
    match count {
        Some(count) => Some(count),
        None => before(words),
    }
}

// The reason, alone, where the word is one.
#[tactic(auto, unfolding(crate::specs::Claims::chosen))]
fn chosen(reason: Option<Reason>, word: &str, words: &[&str]) -> Option<Result<Claim, Unfit>>
    ensures { result ≡ chosen reason word.now (map (λ word. word.now) words.now) }
{
    match reason {
        Some(reason) => match over(words, behind_term(words, Wanted::Nothing)) {
            Ok(()) => Some(Ok(Claim::RefusesChoice(reason))),
            Err(unfit) => Some(Err(unfit)),
        },
        None => {
            if byte(word.as_bytes()).is_some() {
                None
            } else {
                Some(Err(Unfit::before(words, Wanted::Chosen)))
            }
        }
    }
}

// What stands behind `refuses choose`, where it is no member.
#[tactic(auto, unfolding(crate::specs::Claims::refused_choice))]
fn refused_choice(words: &[&str]) -> Option<Result<Claim, Unfit>>
    ensures { result ≡ refused_choice (map (λ word. word.now) words.now) }
{
    match words {
        [] => Some(Err(Unfit::End(Wanted::Chosen))),
        [word, rest @ ..] => chosen(reason(word), word, rest),
    }
}

// The reason for which each choice would be refused.
#[tactic(auto, unfolding(crate::specs::Claims::refused))]
fn refused(words: &[&str]) -> Option<Result<Claim, Unfit>>
    ensures { result ≡ refused (map (λ word. word.now) words.now) }
{
    match words {
        [] => None,
        [word, rest @ ..] => {
            if *word == "choose" {
                refused_choice(rest)
            } else {
                None
            }
        }
    }
}

// This word alone.
#[tactic(auto, unfolding(crate::specs::Claims::word_alone))]
fn only(name: &str, wanted: Wanted, words: &[&str]) -> Result<(), Unfit>
    ensures { (claim : Claim) → word_alone name.now wanted claim (map (λ word. word.now) words.now) ≡ map_ok (λ _. claim) result }
{
    let [word, rest @ ..] = words else {
        return Err(Unfit::End(wanted));
    };
    if *word == name {
        over(rest, behind_term(rest, Wanted::Nothing))
    } else {
        Err(Unfit::before(rest, wanted))
    }
}

// This word alone, and what it claims.
fn word_alone(name: &str, wanted: Wanted, claim: Claim, words: &[&str]) -> Result<Claim, Unfit>
    ensures { result ≡ word_alone name.now wanted claim (map (λ word. word.now) words.now) }
{
    match only(name, wanted, words) {
        Ok(()) => Ok(claim),
        Err(unfit) => {
            drop(claim);
            Err(unfit)
        }
    }
}

// The follow of an instance, alone.
#[tactic(auto, unfolding(crate::specs::Claims::followed))]
fn followed(words: &[&str]) -> Result<Claim, Unfit>
    ensures { result ≡ followed (map (λ word. word.now) words.now) }
{
    let (instance, rest) = number_first(words, 1, u32::MAX as u64, Wanted::Instance)?;
    over(rest, behind_term(rest, Wanted::Nothing))?;
    Ok(Claim::Follows(instance as u32))
}

// What is claimed, where no words stand behind it.
fn lone_claim(claim: Claim, words: &[&str]) -> Result<Claim, Unfit>
    ensures { result ≡ lone_claim claim (map (λ word. word.now) words.now) }
{
    match over(words, behind_term(words, Wanted::Nothing)) {
        Ok(()) => Ok(claim),
        Err(unfit) => {
            drop(claim);
            Err(unfit)
        }
    }
}

// What is claimed of the last step of a member, or of where the group stands.
#[tactic(auto, unfolding(crate::specs::Claims::step_claim))]
fn step_claim(name: &str, words: &[&str]) -> Option<Result<Claim, Unfit>>
    ensures { result ≡ step_claim name.now (map (λ word. word.now) words.now) }
{
    match name {
        "suspects" => Some(word_alone("up", Wanted::Up, Claim::SuspectsUp, words)),
        "follows" => Some(followed(words)),
        "chooses" => Some(word_alone("unseen", Wanted::Unseen, Claim::ChoosesUnseen, words)),
        "concludes" => Some(word_alone("again", Wanted::Again, Claim::ConcludesAgain, words)),
        "settled" => Some(lone_claim(Claim::Settled, words)),
        "stuck" => Some(lone_claim(Claim::Stuck, words)),
        _ => None,
    }
}

// Decisions, deliveries and choices that would be refused; otherwise what is claimed of the last step.
#[tactic(auto, unfolding(crate::specs::Claims::event_claim))]
fn event_claim(name: &str, words: &[&str]) -> Option<Result<Claim, Unfit>>
    ensures { result ≡ event_claim name.now (map (λ word. word.now) words.now) }
{
    match name {
        "decided" => decided(counted(Amount::Decided, words), words),
        "delivered" => delivered(counted(Amount::Delivered, words), words),
        "refuses" => refused(words),
        _ => step_claim(name, words),
    }
}

// Amounts; otherwise decisions and the others.
#[tactic(auto, unfolding(crate::specs::Claims::amount_claim))]
fn amount_claim(name: &str, words: &[&str]) -> Option<Result<Claim, Unfit>>
    ensures { result ≡ amount_claim name.now (map (λ word. word.now) words.now) }
{
    match name {
        "instance" => at_least(Amount::Instance, words),
        "round" => at_least(Amount::Round, words),
        "waiting" => at_least(Amount::Waiting, words),
        "received" => counted(Amount::Received, words),
        _ => event_claim(name, words),
    }
}

// The claim, where it is no fact; otherwise a fact.
#[tactic(auto, unfolding(crate::specs::Claims::or_fact))]
fn or_fact(
    alloc: Global,
    claim: Option<Result<Claim, Unfit>>,
    name: &str,
    words: &[&str],
) -> Result<Result<Claim, Unfit>, AllocError>
    ensures { IfOk result (λ found. found ≡ or_fact claim name.now (map (λ word. word.now) words.now)) }
{
    if let Some(claim) = claim {
        return Ok(claim);
    }
    Ok(named_fact(alloc, name, words)?.map(Claim::Fact))
}

/// What is claimed of a member.
#[tactic(auto, unfolding(crate::specs::Claims::claim_of))]
pub(crate) fn claim(alloc: Global, words: &[&str]) -> Result<Result<Claim, Unfit>, AllocError>
    ensures { IfOk result (λ claim. claim ≡ claim_of (map (λ word. word.now) words.now)) }
{
    match words {
        [] => Ok(Err(Unfit::End(Wanted::Fact))),
        [name, rest @ ..] => or_fact(alloc, amount_claim(name, rest), name, rest),
    }
}
