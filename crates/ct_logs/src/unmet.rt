//! Expectations that do not hold.

ghost use Rattle.std.specs.Prelude.{◌≡◌, [], All, IfErr, IfOk, IfSome, IsTrue, None, Ok, false, take};
ghost use Rattle.ct_names.specs.Group.{is_member};
ghost use Rattle.ct_logs.specs.Judging.{AreMet, IsUnmetRun};
ghost use Rattle.ct_logs.specs.Silence.{IsSilent};

use crate::merge_fault::MergeFault;
use crate::setup::{lawful, setup_of};
use crate::sources::Sources;
use crate::torn::push_torn;
use ct_grammar::{Claim, Goal, Whom};
use ct_merge::{Expectations, Unmet, first_unmet};
use ct_names::Member;
use ct_play::{Stage, amount_of, push_there, push_wanted, unmet};
use ct_print::push_claim;
use ct_world::World;
use std::alloc::{AllocError, Global};

// What is told of the first expectation of the logs that does not hold in the run, and of last lines that are torn.
pub(crate) fn unmet_text(
    alloc: Global,
    sources: Sources<'_>,
    world: &World,
) -> Result<Option<String>, MergeFault>
    ensures some { IfOk result (λ told. IfSome told (λ text. IsUnmetRun world.now.rehearsal sources.entry.set.now.expected)) }
    ensures none { result ≡ Ok None →
        AreMet world.now.rehearsal (take world.now.rehearsal.setting.members sources.entry.set.now.expected) }
    ensures fault { IfErr result IsSilent }
{
    let expected = sources.set.expected(world.group().n());
    if !expects_some(expected) {
        return Ok(None);
    }
    lawful(world);
    let Some(unmet) = first_unmet(alloc, setup_of(world), world.record(), expected)? else {
        return Ok(None);
    };
    let told = told_of(alloc, sources, expected, &unmet);
    drop(unmet);
    Ok(Some(told?))
}

// Whether one of the logs expects something.
fn expects_some(expected: &[Expectations]) -> bool
    ensures { result ≡ false → All (λ e. e.list ≡ []) expected.now }
{
    for expectations in expected {
        if !expectations.list().is_empty() {
            return true;
        }
    }
    false
}

// The line of the expectation, and why it does not hold.
fn told_of(
    alloc: Global,
    sources: Sources<'_>,
    expected: &[Expectations],
    unmet: &Unmet,
) -> Result<String, AllocError> {
    let mut text = String::new(alloc);
    push_told(&mut text, sources, expected, unmet)?;
    Ok(text)
}

fn push_told(
    text: &mut String,
    sources: Sources<'_>,
    expected: &[Expectations],
    unmet: &Unmet,
) -> Result<(), AllocError> {
    let at = usize::from(unmet.member).saturating_sub(1);
    if let Some(expectations) = expected.get(at) {
        if let Some(expectation) = expectations.list().get(unmet.index) {
            sources.push_numbered(text, unmet.member, expectation.number)?;
            push_unmet(text, &unmet.stage, &expectation.goal)?;
        }
    }
    push_torn(text, sources.names, sources.texts)
}

// The first term of the goal that does not hold on the stage, and what is there.
fn push_unmet(text: &mut String, stage: &Stage, goal: &Goal) -> Result<(), AllocError> {
    let Some(term) = unmet(stage, goal)? else {
        return text.push_str("not met");
    };
    match term.whom {
        Whom::One(member) if stage.world().group().has(member) => {
            push_claim_unmet(text, stage, member, &term.claim)
        }
        _ => text.push_str("not met"),
    }
}

// The claim, which is not true of the member, and what is there, where that is a value or a number.
fn push_claim_unmet(
    text: &mut String,
    stage: &Stage,
    member: Member,
    claim: &Claim,
) -> Result<(), AllocError>
    requires { IsTrue (is_member stage.now.rehearsal.setting.members member) }
{
    text.push_str("expected ")?;
    match claim {
        Claim::Fact(fact) => {
            push_wanted(text, fact)?;
            text.push_str(", there is ")?;
            push_there(text, stage, member, fact)
        }
        Claim::Amount(what, _) => {
            push_claim(text, claim)?;
            let count = amount_of(stage, member, *what);
            write!(text, ", there is {count}")
        }
        _ => push_claim(text, claim),
    }
}
