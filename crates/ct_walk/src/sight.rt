//! Goals of one term that walks come near to.

ghost use Rattle.std.specs.Prelude.{◌≡◌, Some, option_map};
ghost use Rattle.ct_choices.specs.Choices.{round_of};
ghost use Rattle.ct_walk.specs.Missing.{sight_text};
ghost use Rattle.ct_walk.specs.Sights.{sight_in, sight_in_claim, sight_in_term, sight_in_terms};

use ct_grammar::{Amount, Claim, Extent, Goal, Term, When, Whom};
use ct_names::{Instance, Member, Round};
use ct_world::World;
use std::fmt;

/// What a goal of one term asks of any member, of which it is told how near a walk came.
#[derive(Clone, Copy, Debug, Drop, PartialEq, Eq)]
pub enum Sight {
    /// `any decided N`: it got the decision of this instance.
    Decided(Instance),
    /// `any round >= N`: it is in this round of its open instance, or in a later one.
    Round(Round),
}

impl fmt::Display for Sight {
    ghost output = { λ sight. Some (sight_text sight) };

    fn fmt<W: fmt::Write>(&self, f: &mut fmt::Formatter<W>) -> fmt::Result {
        match self {
            Sight::Decided(instance) => write!(f, "decided {instance}"),
            Sight::Round(round) => write!(f, "round {round}"),
        }
    }
}

// What the goal asks for, where it is one such term.
pub(crate) fn sight_in(until: Option<&Goal>) -> Option<Sight>
    ensures { result ≡ sight_in (option_map (λ goal. goal.now) until.entry) }
{
    sight_in_terms(&until?.terms)
}

fn sight_in_terms(terms: &[Term]) -> Option<Sight>
    ensures { result ≡ sight_in_terms terms.now }
{
    match terms {
        [term] => sight_in_term(term.when, term.whom, &term.claim),
        _ => None,
    }
}

fn sight_in_term(when: When, whom: Whom, claim: &Claim) -> Option<Sight>
    ensures { result ≡ sight_in_term when whom claim.now }
{
    match (when, whom) {
        (When::Now, Whom::Any) => sight_in_claim(claim),
        _ => None,
    }
}

fn sight_in_claim(claim: &Claim) -> Option<Sight>
    ensures { result ≡ sight_in_claim claim.now }
{
    match claim {
        Claim::Amount(Amount::Round, Extent::AtLeast(round)) => Some(Sight::Round(*round)),
        Claim::Got(instance) => Some(Sight::Decided(*instance)),
        _ => None,
    }
}

// The round that the member is in, 0 where it is in none.
#[tactic(auto, unfolding(ct_choices::specs::Choices::round_of))]
pub(crate) fn round_of(world: &World, member: Member) -> Round
    ensures { result ≡ round_of world.now.rehearsal member }
{
    match world.round(member) {
        Some((round, _)) => round,
        None => 0,
    }
}
