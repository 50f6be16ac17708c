//! Goals, as text.

ghost use Rattle.std.specs.Prelude.{◌≡◌, ◌++◌, [], ◌∷◌, OnOk, codes, string_bytes};
ghost use Rattle.ct_grammar.specs.Words.{text_of};
ghost use Rattle.ct_grammar.specs.Reasons.{reason_text};
ghost use Rattle.ct_print.specs.Acts.{message_word};
ghost use Rattle.ct_print.specs.Goals.{amount_text, claim_text, extent_text, goal_text, term_text, terms_text, when_text, whom_text};

use crate::facts::push_fact;
use crate::members::push_list;
use ct_grammar::{Amount, Claim, Extent, Goal, Name, Term, When, Whom};
use std::alloc::AllocError;

/// Puts the goal behind the text, as `never 2 crashed and any round >= 4`. Where memory is refused, a beginning of it may stand there.
#[tactic(auto, unfolding(crate::specs::Goals::goal_text))]
pub fn push_goal(text: &mut String, goal: &Goal) -> Result<(), AllocError>
    ensures { OnOk result (string_bytes text.new ≡ string_bytes text.old ++ goal_text goal.now) }
{
    push_terms(text, &goal.terms)
}

// The terms, with `and` between them.
fn push_terms(text: &mut String, terms: &[Term]) -> Result<(), AllocError>
    ensures { OnOk result (string_bytes text.new ≡ string_bytes text.old ++ terms_text terms.now) }
{
    let Some((first, others)) = terms.split_first() else {
        return Ok(());
    };
    push_term(text, first)?;
    for term in others {
        text.push_str(" and ")?;
        push_term(text, term)?;
    }
    Ok(())
}

/// Puts the term behind the text, in the same way.
#[tactic(auto, unfolding(crate::specs::Goals::term_text))]
pub fn push_term(text: &mut String, term: &Term) -> Result<(), AllocError>
    ensures { OnOk result (string_bytes text.new ≡ string_bytes text.old ++ term_text term.now) }
{
    push_when(text, term.when)?;
    push_whom(text, term.whom)?;
    text.push_str(" ")?;
    push_claim(text, &term.claim)
}

// At which of the beginnings of the run.
#[tactic(auto, unfolding(crate::specs::Goals::when_text))]
fn push_when(text: &mut String, when: When) -> Result<(), AllocError>
    ensures { OnOk result (string_bytes text.new ≡ string_bytes text.old ++ when_text when) }
{
    match when {
        When::Now => Ok(()),
        When::Ever => text.push_str("ever "),
        When::Never => text.push_str("never "),
    }
}

// Of whom it has to hold.
#[tactic(auto, unfolding(crate::specs::Goals::whom_text))]
fn push_whom(text: &mut String, whom: Whom) -> Result<(), AllocError>
    ensures { OnOk result (string_bytes text.new ≡ string_bytes text.old ++ whom_text whom) }
{
    match whom {
        Whom::One(member) => write!(text, "{member}"),
        Whom::Some(set) => push_list(text, set),
        Whom::All => text.push_str("all"),
        Whom::Any => text.push_str("any"),
        Whom::Up => text.push_str("up"),
    }
}

/// Puts the claim behind the text, in the same way.
#[tactic(auto, unfolding(crate::specs::Goals::claim_text))]
pub fn push_claim(text: &mut String, claim: &Claim) -> Result<(), AllocError>
    ensures { OnOk result (string_bytes text.new ≡ string_bytes text.old ++ claim_text claim.now) }
{
    match claim {
        Claim::Fact(fact) => push_fact(text, fact),
        Claim::Amount(amount, extent) => {
            push_amount(text, *amount)?;
            text.push_str(" ")?;
            push_extent(text, *extent)
        }
        Claim::Got(instance) => write!(text, "decided {instance}"),
        Claim::Before(first, second) => push_before(text, *first, *second),
        Claim::RefusesChoice(reason) => write!(text, "refuses choose {reason}"),
        Claim::SuspectsUp => text.push_str("suspects up"),
        Claim::Follows(instance) => write!(text, "follows {instance}"),
        Claim::ChoosesUnseen => text.push_str("chooses unseen"),
        Claim::ConcludesAgain => text.push_str("concludes again"),
        Claim::Settled => text.push_str("settled"),
        Claim::Stuck => text.push_str("stuck"),
    }
}

// What is counted.
#[tactic(auto, unfolding(crate::specs::Goals::amount_text))]
fn push_amount(text: &mut String, amount: Amount) -> Result<(), AllocError>
    ensures { OnOk result (string_bytes text.new ≡ string_bytes text.old ++ amount_text amount) }
{
    match amount {
        Amount::Instance => text.push_str("instance"),
        Amount::Round => text.push_str("round"),
        Amount::Waiting => text.push_str("waiting"),
        Amount::Received => text.push_str("received count"),
        Amount::Decided => text.push_str("decided count"),
        Amount::Delivered => text.push_str("delivered count"),
    }
}

// How much it has to be.
#[tactic(auto, unfolding(crate::specs::Goals::extent_text))]
fn push_extent(text: &mut String, extent: Extent) -> Result<(), AllocError>
    ensures { OnOk result (string_bytes text.new ≡ string_bytes text.old ++ extent_text extent) }
{
    match extent {
        Extent::Exactly(n) => write!(text, "{n}"),
        Extent::AtLeast(n) => write!(text, ">= {n}"),
    }
}

// A message before another.
#[tactic(auto, unfolding(crate::specs::Acts::message_word))]
fn push_before(text: &mut String, first: Name, second: Name) -> Result<(), AllocError>
    ensures { OnOk result (string_bytes text.new ≡ string_bytes text.old
        ++ text_of (codes "delivered" ∷ message_word first.origin first.number
        ∷ codes "before" ∷ message_word second.origin second.number ∷ [])) }
{
    let Name { origin, number } = first;
    write!(text, "delivered {origin}.{number} before ")?;
    let Name { origin, number } = second;
    write!(text, "{origin}.{number}")
}
