//! What acts do, as lines state it behind them.

ghost use Rattle.std.specs.Prelude.{◌≡◌, Ok, OnOk, OnErr, IfOk, IfErr, string_bytes};
ghost use Rattle.ct_text.specs.Adds.{Adds};
ghost use Rattle.ct_play.specs.Acting.{done_by_each};
ghost use Rattle.ct_play.specs.Faults.{IsFaultOf};
ghost use Rattle.ct_play.specs.Parts.{IsSaidByFirst, IsTaken};
ghost use Rattle.ct_play.specs.Played.{IsLater};
ghost use Rattle.ct_play.specs.Stating.{before, came_to, done_so, done_so_by, done_so_by_each, or_dash, outcome_at, outcome_in_turn};
ghost use Rattle.ct_play.specs.Stating.{stated, unless_other};
ghost use Rattle.ct_play.specs.Who.{named};

use crate::acting::{act_each, step_of, take};
use crate::line_fault::LineFault;
use crate::naming::named;
use crate::outcomes::{is_stated, outcome, push_came};
use crate::stage::Stage;
use ct_grammar::{Act, Statement, Who};
use ct_model::Step;
use ct_names::Member;
use std::alloc::{AllocError, Global};

// ---- lines

// The members that the line names do it, and what each does has to be this.
#[tactic(auto, using(crate::proofs::Parts::said_parts))]
pub(crate) fn state(
    alloc: Global,
    stage: &mut Stage,
    who: &Who,
    act: &Act,
    said: &Statement,
) -> Result<(), LineFault>
    ensures ok { OnOk result (stated stage.old who.now act.now said.now ≡ Ok stage.new) }
    ensures err { IfErr result (IsFaultOf (stated stage.old who.now act.now said.now)) }
    ensures part { OnErr result (IsSaidByFirst who.now act.now said.now stage.old
        (named stage.old.rehearsal.setting.members who.now) stage.new) }
    ensures later { IsLater stage.old stage.new }
{
    let members = named(alloc, stage.world().group(), *who)?;
    state_each(alloc, stage, who, act, said, &members)
}

fn state_each(
    alloc: Global,
    stage: &mut Stage,
    who: &Who,
    act: &Act,
    said: &Statement,
    members: &[Member],
) -> Result<(), LineFault>
    ensures ok { OnOk result (done_so_by_each who.now act.now said.now stage.old members.now ≡ Ok stage.new) }
    ensures err { IfErr result (IsFaultOf (done_so_by_each who.now act.now said.now stage.old members.now)) }
    ensures part { OnErr result (IsSaidByFirst who.now act.now said.now stage.old members.now stage.new) }
    ensures later { IsLater stage.old stage.new }
{
    for member in members {
        state_as(alloc, stage, who, act, said, *member)?;
    }
    Ok(())
}

// The member does it; of all, one that has crashed does nothing.
#[tactic(auto, using(crate::proofs::Later::later_same))]
fn state_as(
    alloc: Global,
    stage: &mut Stage,
    who: &Who,
    act: &Act,
    said: &Statement,
    member: Member,
) -> Result<(), LineFault>
    ensures ok { OnOk result (done_so_by who.now act.now said.now stage.old member ≡ Ok stage.new) }
    ensures err { IfErr result (IsFaultOf (done_so_by who.now act.now said.now stage.old member)) }
    ensures part { OnErr result (IsTaken stage.old member act.now stage.new) }
    ensures later { IsLater stage.old stage.new }
{
    match who {
        Who::All if stage.world().crashed(member) => Ok(()),
        _ => state_one(alloc, stage, act, said, member),
    }
}

// The member does it, and what it does has to be this.
#[tactic(auto, using(crate::proofs::Parts::taken_parts, crate::proofs::Later::later_same), unfolding(crate::specs::Stating::done_so))]
fn state_one(
    alloc: Global,
    stage: &mut Stage,
    act: &Act,
    said: &Statement,
    member: Member,
) -> Result<(), LineFault>
    ensures ok { OnOk result (done_so act.now said.now stage.old member ≡ Ok stage.new) }
    ensures err { IfErr result (IsFaultOf (done_so act.now said.now stage.old member)) }
    ensures part { OnErr result (IsTaken stage.old member act.now stage.new) }
    ensures later { IsLater stage.old stage.new }
{
    let step = step_of(stage, member, *act)?;
    take(stage, step)?;
    compare(stage, member, step, said)
}

// The step came to this.
fn compare(stage: &Stage, member: Member, step: Step, said: &Statement) -> Result<(), LineFault>
    ensures ok { OnOk result (unless_other member step said.now stage.now ≡ Ok stage.now) }
    ensures err { IfErr result (IsFaultOf (unless_other member step said.now stage.now)) }
{
    if is_stated(outcome(stage.world(), step), said) {
        Ok(())
    } else {
        Err(LineFault::NotSo(member))
    }
}

// ---- what is told of a line that is refused

/// Appends what the member's step of the line's act came to, after those of the members before it; a dash where that is
/// nothing, or one of them is refused.
/// A line that is refused leaves the stage as it was, so the steps are taken on another one.
#[tactic(auto, unfolding(crate::specs::Stating::came_to))]
pub fn push_came_to(
    alloc: Global,
    text: &mut String,
    stage: &Stage,
    who: &Who,
    act: &Act,
    member: Member,
) -> Result<(), AllocError>
    ensures { OnOk result (Adds text.old text.new (came_to stage.now who.now act.now member)) }
{
    match outcome_in_turn(alloc, stage, who, act, member) {
        Ok(outcome) => push_or_dash(text, outcome.as_str()),
        Err(fault) if fault.is_short() => Err(AllocError),
        Err(_) => text.push_str("-"),
    }
}

// The bytes, and a dash in place of none.
fn push_or_dash(text: &mut String, bytes: &str) -> Result<(), AllocError>
    ensures { OnOk result (Adds text.old text.new (or_dash bytes.now)) }
{
    if bytes.is_empty() {
        text.push_str("-")
    } else {
        text.push_str(bytes)
    }
}

// What the member's step comes to, after those of the members before it.
fn outcome_in_turn(
    alloc: Global,
    stage: &Stage,
    who: &Who,
    act: &Act,
    member: Member,
) -> Result<String, LineFault>
    ensures ok { IfOk result (λ text. outcome_in_turn stage.now who.now act.now member ≡ Ok (string_bytes text)) }
    ensures err { IfErr result (IsFaultOf (outcome_in_turn stage.now who.now act.now member)) }
{
    let mut again = stage.again()?;
    act_before(alloc, &mut again, who, act, member)?;
    outcome_at(alloc, &mut again, act, member)
}

// The members that the line names before this one do it.
fn act_before(
    alloc: Global,
    stage: &mut Stage,
    who: &Who,
    act: &Act,
    member: Member,
) -> Result<(), LineFault>
    ensures ok { OnOk result (done_by_each who.now act.now stage.old
        (before member (named stage.old.rehearsal.setting.members who.now)) ≡ Ok stage.new) }
    ensures err { IfErr result (IsFaultOf (done_by_each who.now act.now stage.old
        (before member (named stage.old.rehearsal.setting.members who.now)))) }
{
    let members = named(alloc, stage.world().group(), *who)?;
    let members = before(alloc, member, &members)?;
    act_each(alloc, stage, who, act, &members)
}

// Those of the members that are smaller than this one.
fn before(alloc: Global, member: Member, members: &[Member]) -> Result<Vec<Member>, AllocError>
    ensures { IfOk result (λ list. list.items ≡ before member members.now) }
{
    members
        .iter()
        .copied()
        .filter(|other| *other < member)
        .collect(alloc)
}

// Takes the member's step, and says what it came to.
#[tactic(auto, unfolding(crate::specs::Stating::outcome_at))]
fn outcome_at(
    alloc: Global,
    stage: &mut Stage,
    act: &Act,
    member: Member,
) -> Result<String, LineFault>
    ensures ok { IfOk result (λ text. outcome_at act.now stage.old member ≡ Ok (string_bytes text)) }
    ensures err { IfErr result (IsFaultOf (outcome_at act.now stage.old member)) }
{
    let step = step_of(stage, member, *act)?;
    take(stage, step)?;
    let mut text = String::new(alloc);
    push_came(&mut text, outcome(stage.world(), step))?;
    Ok(text)
}
