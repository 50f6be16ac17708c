//! What lines expect.

ghost use Rattle.std.specs.Prelude.{◌≡◌, Ok, OnOk, IfOk, IfErr, option_map};
ghost use Rattle.ct_play.specs.Expecting.{all_known, expected, expected_of, failing, failing_now, unmet};
ghost use Rattle.ct_play.specs.Faults.{IsFaultOf};

use crate::goals::{is_met, unshown};
use crate::line_fault::LineFault;
use crate::stage::Stage;
use crate::strangers::stranger;
use ct_grammar::{Claim, Goal, Term, When, Whom};
use ct_names::{Group, Member};
use std::alloc::AllocError;

// The members that the goal names have to be members of the group, and it has to hold.
#[tactic(auto, unfolding(crate::specs::Expecting::expected))]
pub(crate) fn expect(stage: &Stage, goal: &Goal) -> Result<(), LineFault>
    ensures ok { OnOk result (expected stage.now goal.now ≡ Ok stage.now) }
    ensures err { IfErr result (IsFaultOf (expected stage.now goal.now)) }
{
    all_known(stage.world().group(), goal)?;
    expect_of(stage, goal)
}

// The goal has to hold.
pub(crate) fn expect_of(stage: &Stage, goal: &Goal) -> Result<(), LineFault>
    ensures ok { OnOk result (expected_of stage.now goal.now ≡ Ok stage.now) }
    ensures err { IfErr result (IsFaultOf (expected_of stage.now goal.now)) }
{
    match unmet(stage, goal)? {
        None => Ok(()),
        Some(term) => Err(LineFault::NotMet(failing(stage, term))),
    }
}

// The members that the goal names have to be members of the group.
pub(crate) fn all_known(group: Group, goal: &Goal) -> Result<(), LineFault>
    ensures ok { OnOk result (all_known group goal.now ≡ Ok tt) }
    ensures err { IfErr result (IsFaultOf (all_known group goal.now)) }
{
    match stranger(group.n(), goal) {
        None => Ok(()),
        Some(member) => Err(LineFault::NoSuchMember(member)),
    }
}

/// The first term of the goal that does not hold on the stage.
#[tactic(auto, unfolding(crate::specs::Expecting::unmet))]
pub fn unmet<'g>(stage: &Stage, goal: &'g Goal) -> Result<Option<&'g Term>, AllocError>
    ensures { IfOk result (λ first. option_map (λ term. term.now) first ≡ unmet stage.now goal.now) }
{
    for term in &goal.terms {
        if !is_met(stage, term)? {
            return Ok(Some(term));
        }
    }
    Ok(None)
}

// The member by which the term does not hold, if it is one.
fn failing(stage: &Stage, term: &Term) -> Option<Member>
    ensures { result ≡ failing stage.now term.now }
{
    match term.when {
        When::Now => failing_now(stage, &term.whom, &term.claim),
        When::Ever => None,
        When::Never => None,
    }
}

fn failing_now(stage: &Stage, whom: &Whom, claim: &Claim) -> Option<Member>
    ensures { result ≡ failing_now stage.now whom.now claim.now }
{
    match whom {
        Whom::Any => None,
        _ => unshown(stage, whom, claim),
    }
}
