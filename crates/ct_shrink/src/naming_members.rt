//! Whether a goal names members.

use ct_grammar::{Claim, Fact, Goal, Term, Whom};

// Whether the goal may name a member.
pub(crate) fn names_members(goal: &Goal) -> bool {
    goal.terms.iter().any(term_names)
}

fn term_names(term: &Term) -> bool {
    match term.whom {
        Whom::One(_) | Whom::Some(_) => true,
        Whom::All | Whom::Any | Whom::Up => claim_names(&term.claim),
    }
}

fn claim_names(claim: &Claim) -> bool {
    match claim {
        Claim::Before(..) => true,
        Claim::Fact(fact) => fact_names(fact),
        Claim::Amount(..)
        | Claim::Got(_)
        | Claim::RefusesChoice(_)
        | Claim::SuspectsUp
        | Claim::Follows(_)
        | Claim::ChoosesUnseen
        | Claim::ConcludesAgain
        | Claim::Settled
        | Claim::Stuck => false,
    }
}

fn fact_names(fact: &Fact) -> bool {
    match fact {
        Fact::Up
        | Fact::Crashed
        | Fact::Idle
        | Fact::Instance(_)
        | Fact::Round(_)
        | Fact::Phase(_)
        | Fact::Waiting(_) => false,
        Fact::Received(_)
        | Fact::Decided(_)
        | Fact::Delivered(_)
        | Fact::Table(_)
        | Fact::Refuses(..)
        | Fact::May(_)
        | Fact::Waits(_)
        | Fact::Heard(_)
        | Fact::Acked(_)
        | Fact::Estimate(_) => true,
    }
}
