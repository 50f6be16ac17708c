//! Turns as a driver makes them.

ghost use Rattle.std.specs.Prelude.{◌≡◌, false, true, not, Ok, Some, OnOk, OnErr, IfOk, IfErr};
ghost use Rattle.ct_choices.specs.Choices.{question};
ghost use Rattle.ct_play.specs.Expecting.{all_known, expected_of};
ghost use Rattle.ct_play.specs.Faults.{IsFaultOf, IsShort};
ghost use Rattle.ct_play.specs.Parts.{IsTurnedByFirst, IsTurnedPart};
ghost use Rattle.ct_play.specs.Played.{IsLater, with_step};
ghost use Rattle.ct_play.specs.Turning.{after_attempt, after_round, after_rounds, after_turn, ended, has_ended, is_still, reached};
ghost use Rattle.ct_play.specs.Turning.{IsSeen, IsSeenBefore, terms_in};
ghost use Rattle.ct_play.specs.Turning.{rested, settled, suspected_by, suspects, tried_at, turned};
ghost use Rattle.ct_play.specs.Who.{named};

use crate::cuts::near;
use crate::expecting::{all_known, expect_of};
use crate::goals::{are_due, look_again, looks};
use crate::line_fault::LineFault;
use crate::naming::{known, named};
use crate::stage::Stage;
use ct_choices::{choice, question};
use ct_detect::Ask;
use ct_grammar::{Goal, Play, Term, Who};
use ct_model::Step;
use ct_names::{Member, MemberSet};
use std::alloc::Global;

/// How many rounds of turns a line makes at most that says no number of them.
pub(crate) const MOST_ROUNDS: u32 = 10_000;

// ---- a turn

// A turn of the member, which does nothing once the line has come to its end.
#[tactic(auto, unfolding(crate::specs::Turning::after_turn), using(crate::proofs::Later::later_same))]
fn turn(
    stage: &mut Stage,
    play: &Play,
    member: Member,
    seen: &mut Vec<bool>,
) -> Result<(), LineFault>
    requires { IsSeen play.now stage.old seen.old.items }
    ensures ok { OnOk result (stage.new ≡ after_turn play.now stage.old member) }
    ensures seen { OnOk result (IsSeen play.now stage.new seen.new.items) }
    ensures err { IfErr result IsShort }
    ensures still { OnErr result (stage.new ≡ stage.old) }
    ensures later { IsLater stage.old stage.new }
{
    if has_ended(stage, play, seen) {
        return Ok(());
    }
    match tried_at(stage, member, suspected_by(play)) {
        None => Ok(()),
        Some(step) => attempt(stage, play, step, seen),
    }
}

// Tries the step, and looks at the goal again where it joins the record.
fn attempt(
    stage: &mut Stage,
    play: &Play,
    step: Step,
    seen: &mut Vec<bool>,
) -> Result<(), LineFault>
    requires { IsSeen play.now stage.old seen.old.items }
    ensures ok { OnOk result (stage.new ≡ after_attempt stage.old (Some step)) }
    ensures seen { OnOk result (IsSeen play.now stage.new seen.new.items) }
    ensures err { IfErr result IsShort }
    ensures still { OnErr result (stage.new ≡ stage.old) }
    ensures later { IsLater stage.old stage.new }
{
    if take(stage, step)? {
        look(stage, play, seen);
    }
    Ok(())
}

// Looks at the line's goal again, on the stage of one step more.
fn look(stage: &Stage, play: &Play, seen: &mut Vec<bool>)
    requires { IsSeenBefore play.now stage.now seen.old.items }
    ensures { IsSeen play.now stage.now seen.new.items }
{
    look_again(stage, terms_in(play), seen);
}

// Tries the step; whether it joined the record.
#[tactic(auto, using(crate::proofs::Trying::joins, crate::proofs::Trying::rests, crate::proofs::Later::later_once))]
fn take(stage: &mut Stage, step: Step) -> Result<bool, LineFault>
    ensures ok { OnOk result (stage.new ≡ after_attempt stage.old (Some step)) }
    ensures joined { result ≡ Ok true → stage.new ≡ with_step stage.old step }
    ensures rests { result ≡ Ok false → stage.new ≡ stage.old }
    ensures err { IfErr result IsShort }
    ensures still { OnErr result (stage.new ≡ stage.old) }
    ensures later { IsLater stage.old stage.new }
{
    match stage.step(step) {
        Ok(()) => Ok(true),
        Err(LineFault::Refused(..)) => Ok(false),
        Err(LineFault::Board) => Err(LineFault::Board),
        Err(_) => Err(LineFault::OutOfMemory),
    }
}

// What a turn of the member tries.
#[tactic(auto, unfolding(crate::specs::Turning::tried_at))]
fn tried_at(stage: &Stage, member: Member, suspected: MemberSet) -> Option<Step>
    ensures { result ≡ tried_at stage.now member suspected }
{
    let world = stage.world();
    let suspects = suspects(suspected, question(world, member));
    near(stage, choice(world, member, suspects))
}

fn suspects(suspected: MemberSet, asked: Option<Ask>) -> bool
    ensures { result ≡ suspects suspected asked }
{
    match asked {
        None => false,
        Some(ask) => suspected.contains(ask.coordinator),
    }
}

// Whom the detectors suspect in the line's turns.
fn suspected_by(play: &Play) -> MemberSet
    ensures { result ≡ suspected_by play.now }
{
    match play {
        Play::Turns(_, _, suspected) => *suspected,
        Play::Settle(_, suspected) => *suspected,
        Play::Until(_, suspected, _) => *suspected,
        _ => MemberSet::new(),
    }
}

// Whether the line's turns have come to their end.
#[tactic(auto, unfolding(crate::specs::Goals::shows), using(crate::proofs::Seeing::due_looks))]
fn has_ended(stage: &Stage, play: &Play, seen: &[bool]) -> bool
    requires { IsSeen play.now stage.now seen.now }
    ensures { result ≡ has_ended stage.now play.now }
{
    match play {
        Play::Until(_, _, goal) => are_due(&goal.terms, seen),
        _ => false,
    }
}

// The terms of the line's goal, where it looks at one between turns.
fn terms_in<'p>(play: &'p Play) -> &'p [Term]
    ensures { result.now ≡ terms_in play.now }
{
    match play {
        Play::Until(_, _, goal) => &goal.terms,
        _ => &[],
    }
}

// ---- rounds

// A turn of each of these.
fn round(
    stage: &mut Stage,
    play: &Play,
    members: &[Member],
    seen: &mut Vec<bool>,
) -> Result<(), LineFault>
    requires { IsSeen play.now stage.old seen.old.items }
    ensures seen { OnOk result (IsSeen play.now stage.new seen.new.items) }
    ensures ok { OnOk result (stage.new ≡ after_round play.now members.now stage.old) }
    ensures err { IfErr result IsShort }
    ensures part { OnErr result (IsTurnedByFirst play.now members.now stage.old stage.new) }
    ensures later { IsLater stage.old stage.new }
{
    for member in members {
        turn(stage, play, *member, seen)?;
    }
    Ok(())
}

// A round, and whether something moved in it.
fn moving_round(
    stage: &mut Stage,
    play: &Play,
    members: &[Member],
    seen: &mut Vec<bool>,
) -> Result<bool, LineFault>
    requires { IsSeen play.now stage.old seen.old.items }
    ensures seen { OnOk result (IsSeen play.now stage.new seen.new.items) }
    ensures ok { OnOk result (stage.new ≡ after_round play.now members.now stage.old) }
    ensures moved { IfOk result (λ moved. moved ≡ not (is_still stage.old stage.new)) }
    ensures rests { result ≡ Ok false → stage.new ≡ stage.old }
    ensures err { IfErr result IsShort }
    ensures part { OnErr result (IsTurnedByFirst play.now members.now stage.old stage.new) }
    ensures later { IsLater stage.old stage.new }
{
    let before = stage.world().record().len();
    round(stage, play, members, seen)?;
    Ok(stage.world().record().len() != before)
}

// So many rounds. After one in which nothing moved no other moves anything.
#[tactic(auto, using(crate::proofs::Parts::turned_parts))]
fn rounds(
    stage: &mut Stage,
    play: &Play,
    members: &[Member],
    count: u32,
    seen: &mut Vec<bool>,
) -> Result<(), LineFault>
    requires { IsSeen play.now stage.old seen.old.items }
    ensures seen { OnOk result (IsSeen play.now stage.new seen.new.items) }
    ensures ok { OnOk result (stage.new ≡ after_rounds play.now members.now stage.old count) }
    ensures err { IfErr result IsShort }
    ensures part { OnErr result (IsTurnedPart play.now members.now stage.old count stage.new) }
    ensures later { IsLater stage.old stage.new }
{
    for i in 0..count {
        // The invariant names it.
        let _ = i;
        if !moving_round(stage, play, members, seen)? {
            return Ok(());
        }
    }
    Ok(())
}

// ---- lines

// So many rounds of turns of these members.
#[tactic(auto, using(crate::proofs::Parts::turned_parts), unfolding(crate::specs::Turning::turned))]
pub(crate) fn turns(
    alloc: Global,
    stage: &mut Stage,
    play: &Play,
    who: Who,
    count: u32,
) -> Result<(), LineFault>
    ensures ok { OnOk result (turned stage.old play.now who count ≡ Ok stage.new) }
    ensures err { IfErr result (IsFaultOf (turned stage.old play.now who count)) }
    ensures part { OnErr result (IsTurnedPart play.now (named stage.old.rehearsal.setting.members who) stage.old count stage.new) }
    ensures later { IsLater stage.old stage.new }
{
    let members = known(alloc, stage.world().group(), who)?;
    let mut seen = looks(alloc, stage, terms_in(play))?;
    rounds(stage, play, &members, count, &mut seen)
}

// Rounds of turns of these members until one in which nothing moved.
#[tactic(auto, using(crate::proofs::Parts::turned_parts), unfolding(crate::specs::Turning::settled))]
pub(crate) fn settle(
    alloc: Global,
    stage: &mut Stage,
    play: &Play,
    who: Who,
) -> Result<(), LineFault>
    ensures ok { OnOk result (settled stage.old play.now who ≡ Ok stage.new) }
    ensures err { IfErr result (IsFaultOf (settled stage.old play.now who)) }
    ensures part { OnErr result (IsTurnedPart play.now (named stage.old.rehearsal.setting.members who) stage.old MOST_ROUNDS stage.new) }
    ensures later { IsLater stage.old stage.new }
{
    let members = known(alloc, stage.world().group(), who)?;
    rest(alloc, stage, play, &members)
}

#[tactic(auto, using(crate::proofs::Parts::rested_parts, crate::proofs::Parts::turned_parts), unfolding(crate::specs::Turning::rested))]
fn rest(alloc: Global, stage: &mut Stage, play: &Play, members: &[Member]) -> Result<(), LineFault>
    ensures ok { OnOk result (rested play.now members.now stage.old ≡ Ok stage.new) }
    ensures err { IfErr result (IsFaultOf (rested play.now members.now stage.old)) }
    ensures part { OnErr result (IsTurnedPart play.now members.now stage.old MOST_ROUNDS stage.new) }
    ensures later { IsLater stage.old stage.new }
{
    let mut seen = looks(alloc, stage, terms_in(play))?;
    rounds(stage, play, members, MOST_ROUNDS - 1, &mut seen)?;
    if moving_round(stage, play, members, &mut seen)? {
        Err(LineFault::Restless)
    } else {
        Ok(())
    }
}

// Turns of these members until the goal holds.
#[tactic(auto, using(crate::proofs::Parts::turned_parts), unfolding(crate::specs::Turning::reached))]
pub(crate) fn reach(
    alloc: Global,
    stage: &mut Stage,
    play: &Play,
    who: Who,
    goal: &Goal,
) -> Result<(), LineFault>
    ensures ok { OnOk result (reached stage.old play.now who goal.now ≡ Ok stage.new) }
    ensures err { IfErr result (IsFaultOf (reached stage.old play.now who goal.now)) }
    ensures part { OnErr result (IsTurnedPart play.now (named stage.old.rehearsal.setting.members who) stage.old MOST_ROUNDS stage.new) }
    ensures later { IsLater stage.old stage.new }
{
    let members = known(alloc, stage.world().group(), who)?;
    all_known(stage.world().group(), goal)?;
    let mut seen = looks(alloc, stage, terms_in(play))?;
    rounds(stage, play, &members, MOST_ROUNDS, &mut seen)?;
    expect_of(stage, goal)
}

/// The stage on which the line looks at its goal, made anew: the one after its turns, where it makes turns until the goal holds.
/// A line that is refused leaves the stage as it was, so what was there instead is found here.
#[tactic(auto, unfolding(crate::specs::Turning::ended))]
pub fn ended(alloc: Global, stage: &Stage, play: &Play) -> Result<Stage, LineFault>
    ensures ok { IfOk result (λ end. end ≡ ended stage.now play.now) }
    ensures err { IfErr result IsShort }
{
    let mut end = stage.again()?;
    if let Play::Until(who, _, _) = play {
        let members = named(alloc, end.world().group(), *who)?;
        let mut seen = looks(alloc, &end, terms_in(play))?;
        rounds(&mut end, play, &members, MOST_ROUNDS, &mut seen)?;
    }
    Ok(end)
}
