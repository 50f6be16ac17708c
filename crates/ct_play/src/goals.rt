//! What runs show.

ghost use Rattle.std.specs.Prelude.{◌≡◌, ◌≤◌, ◌||◌, IfOk, find, length, map, option_map};
ghost use Rattle.std.specs.List.{list_all, zip};
ghost use Rattle.ct_names.specs.Group.{members};
ghost use Rattle.ct_names.specs.declared.limit.TheConstants.{MAX_MEMBERS};
ghost use Rattle.ct_play.specs.Goals.{agrees, holds_at, holds_for, is_due, is_meant, is_met, is_such, looked_at};
ghost use Rattle.ct_play.specs.Goals.{come_to, looks_of, next_look, terms, unshown, was_seen};

use crate::claims::is_true_of;
use crate::stage::Stage;
use ct_grammar::{Claim, Goal, Term, When, Whom};
use ct_names::{MAX_MEMBERS, Member};
use ct_world::World;
use std::alloc::{AllocError, Global};

// ---- of whom

// Whether what the term says is so.
fn holds_at(stage: &Stage, term: &Term) -> bool
    ensures { result ≡ holds_at stage.now term.now }
{
    match &term.whom {
        Whom::Any => shown_by_any(stage, &term.claim),
        whom => unshown(stage, whom, &term.claim).is_none(),
    }
}

// Whether the claim is true of a member of the group.
fn shown_by_any(stage: &Stage, claim: &Claim) -> bool
    ensures { result ≡ holds_for stage.now Whom.Any claim.now }
{
    let count = stage.world().group().n();
    first_such(stage, &Whom::Any, claim, true, count).is_some()
}

// The first of the members that the term is about of which the claim is not true.
pub(crate) fn unshown(stage: &Stage, whom: &Whom, claim: &Claim) -> Option<Member>
    ensures { result ≡ unshown stage.now whom.now claim.now }
{
    match whom {
        Whom::One(member) => (!is_true_of(stage, *member, claim)).then_some(*member),
        Whom::Some(set) => {
            // For its clause: the set is that of its members.
            let _ = set.len();
            first_such(stage, whom, claim, false, MAX_MEMBERS)
        }
        _ => { first_such(stage, whom, claim, false, stage.world().group().n()) }
    }
}

// The first of so many members that the term is about and of which the claim is true, or is not.
fn first_such(stage: &Stage, whom: &Whom, claim: &Claim, wanted: bool, count: u8) -> Option<Member>
    requires { count ≤ MAX_MEMBERS }
    ensures { result ≡ find (is_such stage.now whom.now claim.now wanted) (members count) }
{
    for i in 0..count {
        if is_such(stage, whom, claim, wanted, i + 1) {
            return Some(i + 1);
        }
    }
    None
}

#[tactic(auto, unfolding(crate::specs::Goals::is_such))]
fn is_such(stage: &Stage, whom: &Whom, claim: &Claim, wanted: bool, member: Member) -> bool
    ensures { result ≡ is_such stage.now whom.now claim.now wanted member }
{
    is_meant(stage.world(), whom, member) && agrees(wanted, is_true_of(stage, member, claim))
}

// Whether the term is about the member, of those that are looked at.
fn is_meant(world: &World, whom: &Whom, member: Member) -> bool
    ensures { result ≡ is_meant world.now.rehearsal whom.now member }
{
    match whom {
        Whom::One(_) | Whom::All | Whom::Any => true,
        Whom::Some(set) => set.contains(member),
        Whom::Up => !world.crashed(member),
    }
}

fn agrees(wanted: bool, met: bool) -> bool
    ensures { result ≡ agrees wanted met }
{
    if wanted { met } else { !met }
}

// ---- when

// Whether the term holds on the stage. What was so at a beginning of the run is found by taking its steps again.
pub(crate) fn is_met(stage: &Stage, term: &Term) -> Result<bool, AllocError>
    ensures { IfOk result (λ met. met ≡ is_met stage.now term.now) }
{
    Ok(is_due(term.when, come_to(stage, term)?))
}

// What the term comes to on the stage.
fn come_to(stage: &Stage, term: &Term) -> Result<bool, AllocError>
    ensures { IfOk result (λ seen. seen ≡ come_to term.now.when stage.now term.now) }
{
    match term.when {
        When::Now => Ok(holds_at(stage, term)),
        When::Ever | When::Never => was_seen(stage, term),
    }
}

// What each term comes to on the stage.
pub(crate) fn looks(alloc: Global, stage: &Stage, terms: &[Term]) -> Result<Vec<bool>, AllocError>
    ensures { IfOk result (λ looks. looks.items ≡ looks_of stage.now terms.now) }
{
    let mut looks = Vec::new(alloc);
    for term in terms {
        looks.push(come_to(stage, term)?)?;
    }
    Ok(looks)
}

// Whether what the term says was so at a beginning of the run: its steps are taken again.
fn was_seen(stage: &Stage, term: &Term) -> Result<bool, AllocError>
    ensures { IfOk result (λ seen. seen ≡ was_seen stage.now term.now (length stage.now.rehearsal.steps)) }
{
    let Ok(mut part) = stage.first(0) else {
        return Err(AllocError);
    };
    let mut seen = holds_at(&part, term);
    for (i, step) in stage.world().record().iter().enumerate() {
        // The invariant names it.
        let _ = i;
        if part.step(*step).is_err() {
            return Err(AllocError);
        }
        seen = still_seen(&part, term, seen);
    }
    Ok(seen)
}

// Whether that was so before, or is so now.
fn still_seen(stage: &Stage, term: &Term, before: bool) -> bool
    ensures { result ≡ (before || holds_at stage.now term.now) }
{
    before || holds_at(stage, term)
}

// Whether the term holds that came to this.
fn is_due(when: When, seen: bool) -> bool
    ensures { result ≡ is_due when seen }
{
    match when {
        When::Now | When::Ever => seen,
        When::Never => !seen,
    }
}

// ---- step by step

// The terms of what is looked for.
pub(crate) fn terms<'g>(goal: Option<&'g Goal>) -> &'g [Term]
    ensures { result.now ≡ terms (option_map (λ goal. goal.now) goal.entry) }
{
    match goal {
        None => &[],
        Some(goal) => &goal.terms,
    }
}

// Looks at each term on the stage of one step more. What was so once is not looked at again.
pub(crate) fn look_again(stage: &Stage, terms: &[Term], looks: &mut Vec<bool>)
    requires { length looks.old.items ≡ length terms.now }
    ensures { looks.new.items ≡ looked_at stage.now (length terms.now) terms.now looks.old.items }
{
    look(stage, terms, looks);
}

fn look(stage: &Stage, terms: &[Term], looks: &mut [bool])
    requires { length looks.old ≡ length terms.now }
    ensures { looks.new ≡ looked_at stage.now (length terms.now) terms.now looks.old }
{
    for (i, term) in terms.iter().enumerate() {
        looks[i] = next_look(stage, term, looks[i]);
    }
}

// What the term comes to that had come to this before.
fn next_look(stage: &Stage, term: &Term, before: bool) -> bool
    ensures { result ≡ next_look stage.now term.now before }
{
    match term.when {
        When::Now => holds_at(stage, term),
        When::Ever | When::Never => still_seen(stage, term, before),
    }
}

// Whether each of these terms holds, which came to this.
pub(crate) fn are_due(terms: &[Term], looks: &[bool]) -> bool
    ensures { result ≡ list_all (λ look. is_due look.0.when look.1) (zip terms.now looks.now) }
{
    terms
        .iter()
        .zip(looks)
        .all(|(term, seen)| is_due(term.when, *seen))
}
