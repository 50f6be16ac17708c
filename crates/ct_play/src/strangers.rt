//! Members that goals name and groups haven't.

ghost use Rattle.std.specs.Prelude.{◌≡◌, ◌&&◌, not, find};
ghost use Rattle.ct_names.specs.Group.{everyone, is_member};
ghost use Rattle.ct_names.specs.MemberSet.{has_member};
ghost use Rattle.ct_play.specs.Strangers.{claimed, decided, expected, in_set, in_term, of_whom, origin, outside, picked, stranger};

use ct_grammar::{Carried, Claim, Decisions, Fact, Goal, Names, Pick, Term, Whom};
use ct_names::{MAX_MEMBERS, Member, MemberSet};

// The numbers that a member may have.
const EVERYONE: [Member; MAX_MEMBERS as usize] = [
    1, 2, 3, 4, 5, 6, 7, 8, 9, 10, 11, 12, 13, 14, 15, 16,
];

/// The first member that the goal names and that a group of n members hasn't: as one of whom a claim has to hold, or in what is claimed,
/// where an origin of a message counts too. What an act names doesn't: the act would be refused.
#[tactic(auto, unfolding(crate::specs::Strangers::stranger))]
pub fn stranger(n: u8, goal: &Goal) -> Option<Member>
    ensures { result ≡ stranger n goal.now }
{
    for term in &goal.terms {
        if let Some(member) = in_term(n, term) {
            return Some(member);
        }
    }
    None
}

fn in_term(n: u8, term: &Term) -> Option<Member>
    ensures { result ≡ in_term n term.now }
{
    of_whom(n, &term.whom).or(claimed(n, &term.claim))
}

fn of_whom(n: u8, whom: &Whom) -> Option<Member>
    ensures { result ≡ of_whom n whom.now }
{
    match whom {
        Whom::One(member) => outside(n, *member),
        Whom::Some(set) => in_set(n, *set),
        Whom::All | Whom::Any | Whom::Up => None,
    }
}

fn claimed(n: u8, claim: &Claim) -> Option<Member>
    ensures { result ≡ claimed n claim.now }
{
    match claim {
        Claim::Fact(fact) => expected(n, fact),
        Claim::Before(first, second) => outside(n, first.origin).or(outside(n, second.origin)),
        _ => None,
    }
}

fn expected(n: u8, fact: &Fact) -> Option<Member>
    ensures { result ≡ expected n fact.now }
{
    match fact {
        Fact::Received(names) => origin(n, names),
        Fact::Decided(decisions) => decided(n, decisions),
        Fact::Delivered(names) => origin(n, names),
        Fact::Waits(pick) => picked(n, *pick),
        Fact::Heard(set) => in_set(n, *set),
        Fact::Acked(set) => in_set(n, *set),
        Fact::Estimate(Some(estimate)) => origin(n, &estimate.names),
        _ => None,
    }
}

fn decided(n: u8, decisions: &Decisions) -> Option<Member>
    ensures { result ≡ decided n decisions.now }
{
    for decision in decisions.as_slice() {
        if let Some(member) = origin(n, &decision.names) {
            return Some(member);
        }
    }
    None
}

// The first origin of the messages.
fn origin(n: u8, names: &Names) -> Option<Member>
    ensures { result ≡ origin n names.now }
{
    names
        .as_slice()
        .iter()
        .map(|name| name.origin)
        .find(|origin| !is_member(n, *origin))
}

// An origin, or the sender.
fn picked(n: u8, pick: Pick) -> Option<Member>
    ensures { result ≡ picked n pick }
{
    match pick {
        Pick::Serial(_) => None,
        Pick::First(Carried::Data(origin, _), None) => outside(n, origin),
        Pick::First(Carried::Data(origin, _), Some(from)) => outside(n, origin).or(outside(
            n, from,
        )),
        Pick::First(_, Some(from)) => outside(n, from),
        Pick::First(_, None) => None,
    }
}

#[tactic(auto, unfolding(ct_names::specs::Group::members))]
fn in_set(n: u8, set: MemberSet) -> Option<Member>
    ensures { result ≡ in_set n set }
{
    EVERYONE
        .iter()
        .copied()
        .find(|member| set.contains(*member) && !is_member(n, *member))
}

fn outside(n: u8, member: Member) -> Option<Member>
    ensures { result ≡ outside n member }
{
    if is_member(n, member) {
        None
    } else {
        Some(member)
    }
}

fn is_member(n: u8, member: Member) -> bool
    ensures { result ≡ is_member n member }
{
    1 <= member && member <= n
}
