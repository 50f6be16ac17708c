//! The texts of faults, in the world before the line.

ghost use Rattle.std.specs.Prelude.{◌≡◌, ◌-◌, OnOk, IsTrue};
ghost use Rattle.ct_text.specs.Adds.{Adds};
ghost use Rattle.ct_names.specs.Group.{is_member};
ghost use Rattle.ct_print.specs.Statements.{statement_text};
ghost use Rattle.ct_play.specs.Expecting.{unmet};
ghost use Rattle.ct_play.specs.Facts.{there, wanted};
ghost use Rattle.ct_play.specs.Stating.{came_to};
ghost use Rattle.ct_judging.specs.Missing.{missing_text, none_from_text};
ghost use Rattle.ct_judging.specs.Telling.{claim_unmet, done_by_first, fault_in, goal_unmet, if_member_text, not_met_text};
ghost use Rattle.ct_judging.specs.Telling.{not_reached_text, not_so_text, or_before, other_text, seen_text, step_fault, term_unmet};
ghost use Rattle.ct_judging.specs.Telling.{tried, tried_of, untrue_text};
ghost use Rattle.ct_judging.specs.Telling.{plain_text, stranger_text, unmet_text, unsettled_text};
ghost use Rattle.ct_judging.specs.Wording.{behind};

use crate::hindering::push_hindered;
use crate::missing::{push_across, push_missing, push_none_from};
use crate::refusing::push_refused;
use crate::trying::behind_first;
use crate::wording::push_number;
use ct_grammar::{Act, Claim, Fact, Goal, Line, Pick, Play, Statement, Term, When, Who};
use ct_names::Member;
use ct_play::{LineFault, Stage, amount_of, ended, push_came_to, push_there, push_wanted, unmet};
use ct_print::{push_claim, push_statement, push_term};
use ct_settled::hindrance_of;
use std::alloc::{AllocError, Global};

// The fault of the line.
pub(crate) fn push_fault_in(
    alloc: Global,
    text: &mut String,
    stage: &Stage,
    line: &Line,
    fault: LineFault,
) -> Result<(), AllocError>
    ensures { OnOk result (Adds text.old text.new (fault_in stage.now line.now fault)) }
{
    match fault {
        LineFault::NotThere(member, _) => push_tried(alloc, text, stage, line, member, fault),
        LineFault::NoneFrom(member, _) => push_tried(alloc, text, stage, line, member, fault),
        LineFault::Across(member, _) => push_tried(alloc, text, stage, line, member, fault),
        LineFault::Refused(step, _) => push_tried(alloc, text, stage, line, step.member(), fault),
        LineFault::NotMet(member) => push_not_met(alloc, text, stage, member, line),
        LineFault::NotSo(member) => push_not_so(alloc, text, stage, member, line),
        fault => push_plain(text, fault),
    }
}

// The fault of the member's step, which the line tries.
fn push_tried(
    alloc: Global,
    text: &mut String,
    stage: &Stage,
    line: &Line,
    member: Member,
    fault: LineFault,
) -> Result<(), AllocError>
    ensures { OnOk result (Adds text.old text.new (step_fault (tried stage.now member line.now) fault)) }
{
    match line {
        Line::Play(Play::Act(who, act)) => {
            push_tried_of(alloc, text, stage, who, act, member, fault)
        }
        Line::Play(Play::Stated(who, act, _)) => {
            push_tried_of(alloc, text, stage, who, act, member, fault)
        }
        _ => push_step_fault(text, stage, fault),
    }
}

// The same of an act of these members.
fn push_tried_of(
    alloc: Global,
    text: &mut String,
    stage: &Stage,
    who: &Who,
    act: &Act,
    member: Member,
    fault: LineFault,
) -> Result<(), AllocError>
    ensures { OnOk result (Adds text.old text.new (step_fault (tried_of stage.now member who.now act.now) fault)) }
{
    match who {
        Who::One(_) => push_step_fault(text, stage, fault),
        Who::Some(_) => push_behind_first(alloc, text, stage, who, act, member, fault),
        Who::All => push_behind_first(alloc, text, stage, who, act, member, fault),
    }
}

// The same where several are named.
fn push_behind_first(
    alloc: Global,
    text: &mut String,
    stage: &Stage,
    who: &Who,
    act: &Act,
    member: Member,
    fault: LineFault,
) -> Result<(), AllocError>
    ensures { OnOk result (Adds text.old text.new
        (step_fault (or_before stage.now (done_by_first who.now act.now stage.now (member - 1))) fault)) }
{
    let tried = behind_first(alloc, stage, who, act, member)?;
    push_step_fault(text, &tried, fault)
}

// The fault of a step that is tried on the stage.
fn push_step_fault(text: &mut String, stage: &Stage, fault: LineFault) -> Result<(), AllocError>
    ensures { OnOk result (Adds text.old text.new (step_fault stage.now fault)) }
{
    match fault {
        LineFault::NotThere(member, pick) => push_not_there(text, stage, member, pick),
        LineFault::NoneFrom(member, _) => push_none(text, stage, member),
        LineFault::Across(_, serial) => push_across(text, stage, serial),
        LineFault::Refused(step, refusal) => push_refused(text, stage.world(), step, refusal),
        fault => push_plain(text, fault),
    }
}

// A fault that needs no world.
pub(crate) fn push_plain(text: &mut String, fault: LineFault) -> Result<(), AllocError>
    ensures { OnOk result (Adds text.old text.new (plain_text fault)) }
{
    match fault {
        LineFault::NotUnderstood => text.push_str("not understood"),
        LineFault::NoMembers => text.push_str("no members"),
        LineFault::Settled => text.push_str("the group is settled"),
        LineFault::NoSuchMember(member) => push_stranger(text, member),
        LineFault::Restless => text.push_str("not at rest after 10000 rounds"),
        LineFault::OutOfMemory => text.push_str("out of memory"),
        LineFault::Board => text.push_str("board refused"),
        _ => text.push_str("refused"),
    }
}

// None of the group's members.
fn push_stranger(text: &mut String, member: Member) -> Result<(), AllocError>
    ensures { OnOk result (Adds text.old text.new (stranger_text member)) }
{
    write!(text, "no member {member}")
}

// Where what the line names is, and what waits.
fn push_not_there(
    text: &mut String,
    stage: &Stage,
    member: Member,
    pick: Pick,
) -> Result<(), AllocError>
    ensures { OnOk result (Adds text.old text.new (if_member_text stage.now member (missing_text stage.now.rehearsal member pick))) }
{
    if stage.world().group().has(member) {
        push_missing(text, stage, member, pick)
    } else {
        push_stranger(text, member)
    }
}

fn push_none(text: &mut String, stage: &Stage, member: Member) -> Result<(), AllocError>
    ensures { OnOk result (Adds text.old text.new (if_member_text stage.now member (none_from_text stage.now.rehearsal member))) }
{
    if stage.world().group().has(member) {
        push_none_from(text, stage, member)
    } else {
        push_stranger(text, member)
    }
}

// What is expected of the member, and what is there.
fn push_not_met(
    alloc: Global,
    text: &mut String,
    stage: &Stage,
    member: Option<Member>,
    line: &Line,
) -> Result<(), AllocError>
    ensures { OnOk result (Adds text.old text.new (not_met_text stage.now member line.now)) }
{
    match line {
        Line::Play(Play::Expect(goal)) => push_goal_unmet(alloc, text, stage, member, goal),
        Line::Play(play) => push_not_reached(alloc, text, stage, member, play),
        _ => text.push_str("not met"),
    }
}

// The same after turns.
fn push_not_reached(
    alloc: Global,
    text: &mut String,
    stage: &Stage,
    member: Option<Member>,
    play: &Play,
) -> Result<(), AllocError>
    ensures { OnOk result (Adds text.old text.new (not_reached_text stage.now member play.now)) }
{
    let Play::Until(_, _, goal) = play else {
        return text.push_str("not met");
    };
    match ended(alloc, stage, play) {
        Ok(end) => push_goal_unmet(alloc, text, &end, member, goal),
        Err(_) => Err(AllocError),
    }
}

// The first term that does not hold, and the member by which it does not.
fn push_goal_unmet(
    alloc: Global,
    text: &mut String,
    stage: &Stage,
    member: Option<Member>,
    goal: &Goal,
) -> Result<(), AllocError>
    ensures { OnOk result (Adds text.old text.new (goal_unmet stage.now member (unmet stage.now goal.now))) }
{
    let Some(term) = unmet(stage, goal)? else {
        return text.push_str("not met");
    };
    match member {
        None => push_term_unmet(text, term),
        Some(member) => push_claim_if(alloc, text, stage, member, &term.claim),
    }
}

#[tactic(auto, unfolding(ct_judging::specs::Telling::term_unmet, ct_judging::specs::Wording::behind))]
fn push_term_unmet(text: &mut String, term: &Term) -> Result<(), AllocError>
    ensures { OnOk result (Adds text.old text.new (term_unmet term.now)) }
{
    text.push_str("not met: ")?;
    push_term(text, term)?;
    text.push_str(seen_text(term.when))
}

// What was seen of a term that is not about each of some members as they are now.
fn seen_text(when: When) -> &'static str
    ensures { result.now ≡ seen_text when }
{
    match when {
        When::Now => ": no member shows it",
        When::Ever => ": no beginning of the run shows it",
        When::Never => ": a beginning of the run shows it",
    }
}

fn push_claim_if(
    alloc: Global,
    text: &mut String,
    stage: &Stage,
    member: Member,
    claim: &Claim,
) -> Result<(), AllocError>
    ensures { OnOk result (Adds text.old text.new (if_member_text stage.now member (claim_unmet stage.now member claim.now))) }
{
    if stage.world().group().has(member) {
        push_claim_unmet(alloc, text, stage, member, claim)
    } else {
        push_stranger(text, member)
    }
}

// The claim that is not true of the member; what is there, where that is a value or a number, or what stands in the way.
fn push_claim_unmet(
    alloc: Global,
    text: &mut String,
    stage: &Stage,
    member: Member,
    claim: &Claim,
) -> Result<(), AllocError>
    requires { IsTrue (is_member stage.now.rehearsal.setting.members member) }
    ensures { OnOk result (Adds text.old text.new (claim_unmet stage.now member claim.now)) }
{
    match claim {
        Claim::Fact(fact) => push_unmet(text, stage, member, fact),
        Claim::Amount(what, _) => {
            push_untrue(text, member, claim)?;
            push_number(text, ", there is ", amount_of(stage, member, *what))
        }
        Claim::Settled => push_unsettled(alloc, text, stage, member, claim),
        _ => push_untrue(text, member, claim),
    }
}

// A claim that all is done, and what stands in the way.
#[tactic(auto, unfolding(ct_judging::specs::Telling::unsettled_text))]
fn push_unsettled(
    alloc: Global,
    text: &mut String,
    stage: &Stage,
    member: Member,
    claim: &Claim,
) -> Result<(), AllocError>
    ensures { OnOk result (Adds text.old text.new (unsettled_text stage.now member claim.now)) }
{
    push_untrue(text, member, claim)?;
    push_hindered(text, stage, hindrance_of(alloc, stage)?)
}

#[tactic(auto, unfolding(ct_judging::specs::Telling::untrue_text, ct_judging::specs::Wording::behind))]
fn push_untrue(text: &mut String, member: Member, claim: &Claim) -> Result<(), AllocError>
    ensures { OnOk result (Adds text.old text.new (untrue_text member claim.now)) }
{
    push_number(text, "not met: member ", usize::from(member))?;
    text.push_str(": expected ")?;
    push_claim(text, claim)
}

#[tactic(auto, unfolding(ct_judging::specs::Telling::unmet_text))]
fn push_unmet(
    text: &mut String,
    stage: &Stage,
    member: Member,
    fact: &Fact,
) -> Result<(), AllocError>
    requires { IsTrue (is_member stage.now.rehearsal.setting.members member) }
    ensures { OnOk result (Adds text.old text.new (unmet_text stage.now member fact.now)) }
{
    push_number(text, "not met: member ", usize::from(member))?;
    push_wanted_behind(text, ": expected ", fact)?;
    push_there_behind(text, ", there is ", stage, member, fact)
}

#[tactic(auto, unfolding(ct_judging::specs::Wording::behind))]
fn push_wanted_behind(text: &mut String, words: &str, fact: &Fact) -> Result<(), AllocError>
    ensures { OnOk result (Adds text.old text.new (behind words.now (wanted fact.now))) }
{
    text.push_str(words)?;
    push_wanted(text, fact)
}

#[tactic(auto, unfolding(ct_judging::specs::Wording::behind))]
fn push_there_behind(
    text: &mut String,
    words: &str,
    stage: &Stage,
    member: Member,
    fact: &Fact,
) -> Result<(), AllocError>
    requires { IsTrue (is_member stage.now.rehearsal.setting.members member) }
    ensures { OnOk result (Adds text.old text.new (behind words.now (there stage.now member fact.now))) }
{
    text.push_str(words)?;
    push_there(text, stage, member, fact)
}

// What is stated of the member's step, and what it came to.
fn push_not_so(
    alloc: Global,
    text: &mut String,
    stage: &Stage,
    member: Member,
    line: &Line,
) -> Result<(), AllocError>
    ensures { OnOk result (Adds text.old text.new (not_so_text stage.now member line.now)) }
{
    match line {
        Line::Play(Play::Stated(who, act, said)) => {
            push_other(alloc, text, stage, member, who, act, said)
        }
        _ => text.push_str("not so"),
    }
}

#[tactic(auto, unfolding(ct_judging::specs::Telling::other_text))]
fn push_other(
    alloc: Global,
    text: &mut String,
    stage: &Stage,
    member: Member,
    who: &Who,
    act: &Act,
    said: &Statement,
) -> Result<(), AllocError>
    ensures { OnOk result (Adds text.old text.new (other_text stage.now member who.now act.now said.now)) }
{
    push_number(text, "not so: member ", usize::from(member))?;
    push_stated_behind(text, ": stated ", said)?;
    push_came_to_behind(alloc, text, ", there is ", stage, who, act, member)
}

#[tactic(auto, unfolding(ct_judging::specs::Wording::behind))]
fn push_stated_behind(text: &mut String, words: &str, said: &Statement) -> Result<(), AllocError>
    ensures { OnOk result (Adds text.old text.new (behind words.now (statement_text said.now))) }
{
    text.push_str(words)?;
    push_statement(text, said)
}

#[tactic(auto, unfolding(ct_judging::specs::Wording::behind))]
fn push_came_to_behind(
    alloc: Global,
    text: &mut String,
    words: &str,
    stage: &Stage,
    who: &Who,
    act: &Act,
    member: Member,
) -> Result<(), AllocError>
    ensures { OnOk result (Adds text.old text.new (behind words.now (came_to stage.now who.now act.now member))) }
{
    text.push_str(words)?;
    push_came_to(alloc, text, stage, who, act, member)
}
