//! From the text of a goal to what it says.

ghost use Rattle.std.specs.Prelude.{◌≡◌, ◌<◌, ◌+◌, ◌∷◌, [], length, take, drop, IfOk, IfSome, IfNone, map};
ghost use Rattle.ct_grammar.specs.Goals.{whom_of, claimed, term_of, parts_of, misfit_before_and, told_before_and, goal_in, goal_of};
ghost use Rattle.ct_grammar.specs.Unfits.{map_ok};

use crate::claiming::claim;
use crate::goal::Goal;
use crate::misfit::{Misfit, misfit_of};
use crate::numbers::{byte, has_comma, members};
use crate::term::{Term, When, Whom};
use crate::unfit::Unfit;
use crate::wanted::Wanted;
use crate::words::words_of;
use std::alloc::{AllocError, Global};

/// The goal that the text says, or which word of it does not fit.
#[tactic(auto, unfolding(crate::specs::Goals::goal_of))]
pub fn goal_of(alloc: Global, text: &str) -> Result<Result<Goal, Misfit>, AllocError>
    ensures { IfOk result (λ goal. goal ≡ goal_of text.now) }
{
    let words = words_of(alloc, text)?;
    goal(alloc, words.as_slice())
}

/// The goal of these words, or which of them does not fit.
pub(crate) fn goal(alloc: Global, words: &[&str]) -> Result<Result<Goal, Misfit>, AllocError>
    ensures { IfOk result (λ goal. goal ≡ goal_in (map (λ word. word.now) words.now)) }
{
    let mut terms = Vec::new(alloc);
    match push_terms(alloc, &mut terms, words) {
        Ok(Ok(())) => Ok(Ok(Goal { terms })),
        Ok(Err(misfit)) => {
            drop(terms);
            Ok(Err(misfit))
        }
        Err(error) => {
            drop(terms);
            Err(error)
        }
    }
}

// Puts the terms of these words into an empty list.
#[tactic(auto, unfolding(crate::specs::Goals::goal_in))]
fn push_terms(
    alloc: Global,
    terms: &mut Vec<Term>,
    words: &[&str],
) -> Result<Result<(), Misfit>, AllocError>
    requires { terms.old.items ≡ [] }
    ensures { IfOk result (λ done. map_ok (λ _. terms.new.items) done ≡ goal_in (map (λ word. word.now) words.now)) }
{
    let mut rest = words;
    while let Some(i) = first_and(rest) {
        match term_before_and(alloc, &rest[..i])? {
            Ok(term) => terms.push(term)?,
            Err(misfit) => return Ok(Err(misfit)),
        }
        rest = behind(rest, i);
    }
    match term(alloc, rest)? {
        Ok(term) => {
            terms.push(term)?;
            Ok(Ok(()))
        }
        Err(unfit) => Ok(Err(misfit_of(alloc, rest, unfit)?)),
    }
}

// Of whom a claim has to hold.
#[tactic(auto, unfolding(crate::specs::Goals::whom_of))]
fn whom(word: &str) -> Option<Whom>
    ensures { result ≡ whom_of word.now }
{
    match word {
        "all" => Some(Whom::All),
        "any" => Some(Whom::Any),
        "up" => Some(Whom::Up),
        _ => {
            let word = word.as_bytes();
            if has_comma(word) {
                Some(Whom::Some(members(word)?))
            } else {
                Some(Whom::One(byte(word)?))
            }
        }
    }
}

// Of whom a claim has to hold, and the claim.
#[tactic(auto, unfolding(crate::specs::Goals::claimed))]
fn claimed(
    alloc: Global,
    when: When,
    wanted: Wanted,
    words: &[&str],
) -> Result<Result<Term, Unfit>, AllocError>
    ensures { IfOk result (λ term. term ≡ claimed when wanted (map (λ word. word.now) words.now)) }
{
    let [word, rest @ ..] = words else {
        return Ok(Err(Unfit::End(wanted)));
    };
    let Some(whom) = whom(word) else {
        return Ok(Err(Unfit::before(rest, wanted)));
    };
    match claim(alloc, rest)? {
        Ok(claim) => Ok(Ok(Term { when, whom, claim })),
        Err(unfit) => Ok(Err(unfit)),
    }
}

// A term.
#[tactic(auto, unfolding(crate::specs::Goals::term_of))]
fn term(alloc: Global, words: &[&str]) -> Result<Result<Term, Unfit>, AllocError>
    ensures { IfOk result (λ term. term ≡ term_of (map (λ word. word.now) words.now)) }
{
    match words {
        [] => Ok(Err(Unfit::End(Wanted::Term))),
        [word, rest @ ..] => match *word {
            "ever" => claimed(alloc, When::Ever, Wanted::Whom, rest),
            "never" => claimed(alloc, When::Never, Wanted::Whom, rest),
            _ => claimed(alloc, When::Now, Wanted::Term, words),
        },
    }
}

// The place of the first `and`; the words before it and those behind it are parts of their own.
fn first_and(words: &[&str]) -> Option<usize>
    ensures none { IfNone result (parts_of (map (λ word. word.now) words.now) ≡ map (λ word. word.now) words.now ∷ []) }
    ensures first { IfSome result (λ i. parts_of (map (λ word. word.now) words.now)
        ≡ map (λ word. word.now) (take i words.now) ∷ parts_of (map (λ word. word.now) (drop (i + 1) words.now))) }
    ensures within { IfSome result (λ i. i < length words.now) }
{
    for (i, word) in words.iter().enumerate() {
        if *word == "and" {
            return Some(i);
        }
    }
    None
}

// The words behind this place.
fn behind<'w, 'a>(words: &'w [&'a str], place: usize) -> &'w [&'a str]
    requires { place < length words.now }
    ensures { result.now ≡ drop (place + 1) words.now }
{
    &words[place + 1..]
}

// The term of these words, behind which an `and` stands.
fn term_before_and(alloc: Global, words: &[&str]) -> Result<Result<Term, Misfit>, AllocError>
    ensures { IfOk result (λ term. term ≡ told_before_and (map (λ word. word.now) words.now) (term_of (map (λ word. word.now) words.now))) }
{
    match term(alloc, words)? {
        Ok(term) => Ok(Ok(term)),
        Err(unfit) => Ok(Err(misfit_before_and(alloc, words, unfit)?)),
    }
}

// What does not fit among the words of a term, behind which an `and` stands.
#[tactic(auto, unfolding(crate::specs::Goals::misfit_before_and))]
fn misfit_before_and(alloc: Global, words: &[&str], unfit: Unfit) -> Result<Misfit, AllocError>
    ensures { IfOk result (λ misfit. misfit ≡ misfit_before_and (map (λ word. word.now) words.now) unfit) }
{
    match unfit {
        Unfit::End(wanted) => misfit_of(alloc, &["and"], Unfit::Word(0, wanted)),
        Unfit::Word(_, _) => misfit_of(alloc, words, unfit),
    }
}
