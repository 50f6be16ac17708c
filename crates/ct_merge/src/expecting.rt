//! What logs may expect.

ghost use Rattle.std.specs.Prelude.{◌≡◌};
ghost use Rattle.ct_merge.specs.Expected.{expected, has_others, if_open, is_full, open_amount, open_claim, open_fact, open_may};
ghost use Rattle.ct_merge.specs.Expected.{open_refusal, whose, whose_term};

use crate::entry::{Entry, NoEntry};
use ct_grammar::{Act, Amount, Claim, Fact, Goal, Reason, Term, When, Whom};
use ct_names::{Member, Refusal};

/// What a log has of the goal: one fact of one member, as it is there whatever the order of the others.
pub(crate) fn expected(goal: Goal) -> Result<Entry, NoEntry>
    ensures { result ≡ expected goal }
{
    match whose(&goal.terms) {
        Ok(member) => Ok(Entry::Expected(member, goal)),
        Err(why) => Err(why),
    }
}

// The member of which the only one of the terms claims something.
fn whose(terms: &[Term]) -> Result<Member, NoEntry>
    ensures { result ≡ whose terms.now }
{
    match terms {
        [term] => whose_term(term.when, term.whom, &term.claim),
        _ => Err(NoEntry::NoFact),
    }
}

fn whose_term(when: When, whom: Whom, claim: &Claim) -> Result<Member, NoEntry>
    ensures { result ≡ whose_term when whom claim.now }
{
    match (when, whom) {
        (When::Now, Whom::One(member)) => match open_claim(claim) {
            None => Ok(member),
            Some(why) => Err(why),
        },
        _ => Err(NoEntry::NoFact),
    }
}

// Why a log has no such claim.
fn open_claim(claim: &Claim) -> Option<NoEntry>
    ensures { result ≡ open_claim claim.now }
{
    match claim {
        Claim::Fact(fact) => open_fact(fact),
        Claim::Amount(what, _) => open_amount(*what),
        Claim::Got(_) => None,
        Claim::Before(..) => None,
        Claim::RefusesChoice(reason) => open_refusal(false, *reason),
        Claim::SuspectsUp => Some(NoEntry::OpenFact),
        Claim::Follows(_) => Some(NoEntry::OpenFact),
        Claim::ChoosesUnseen => Some(NoEntry::OpenFact),
        Claim::ConcludesAgain => Some(NoEntry::OpenFact),
        Claim::Settled => Some(NoEntry::OpenFact),
        Claim::Stuck => Some(NoEntry::OpenFact),
    }
}

fn open_amount(what: Amount) -> Option<NoEntry>
    ensures { result ≡ open_amount what }
{
    match what {
        Amount::Waiting => Some(NoEntry::OpenFact),
        _ => None,
    }
}

fn open_fact(fact: &Fact) -> Option<NoEntry>
    ensures { result ≡ open_fact fact.now }
{
    match fact {
        Fact::Refuses(act, reason) => open_refusal(has_others(*act), *reason),
        Fact::May(act) => open_may(has_others(*act)),
        Fact::Waiting(_) => Some(NoEntry::OpenFact),
        Fact::Waits(_) => Some(NoEntry::OpenFact),
        _ => None,
    }
}

fn open_may(others: bool) -> Option<NoEntry>
    ensures { result ≡ open_may others }
{
    if others {
        Some(NoEntry::OpenFact)
    } else {
        None
    }
}

fn open_refusal(others: bool, reason: Reason) -> Option<NoEntry>
    ensures { result ≡ open_refusal others reason }
{
    if others || is_full(reason) {
        Some(NoEntry::OpenRefusal)
    } else {
        None
    }
}

// Whether it is a limit, which may be one of all the logs together.
fn is_full(reason: Reason) -> bool
    ensures { result ≡ is_full reason }
{
    matches!(reason, Reason::Rules(Refusal::Full(_)))
}

// Whether an envelope has to be there, or to have been: it depends on the others when that is.
fn has_others(act: Act) -> bool
    ensures { result ≡ has_others act }
{
    match act {
        Act::Receive(_) => true,
        Act::Postpone(_) => true,
        Act::Lose(_) => true,
        Act::Repeat(_) => true,
        Act::LoseFrom(_) => true,
        _ => false,
    }
}
