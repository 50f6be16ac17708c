//! The lines of a schedule, one by one.

ghost use Rattle.std.specs.Prelude.{◌≡◌, OnOk, IfErr, IsTrue, None, string_bytes};
ghost use Rattle.ct_names.specs.Group.{is_member};
ghost use Rattle.ct_model.specs.Cause.{cause};
ghost use Rattle.ct_play.specs.Faults.{IsShort};
ghost use Rattle.ct_play.specs.Played.{with_step};
ghost use Rattle.ct_listing.specs.Expecting.{IsThere};
ghost use Rattle.ct_listing.specs.Leading.{Leads};

use crate::acting::act_of;
use crate::naming::Naming;
use crate::remarks::remark_of;
use crate::told::push_told;
use ct_grammar::{Claim, Fact, Goal, Line, Play, Term, When, Who, Whom};
use ct_model::Step;
use ct_names::Member;
use ct_play::{LineFault, Stage, play};
use std::alloc::{AllocError, Global};

// Writes the step, and takes it.
pub(crate) fn push_step(
    alloc: Global,
    text: &mut String,
    stage: &mut Stage,
    step: Step,
) -> Result<(), LineFault>
    requires leads { Leads (string_bytes text.old) stage.old }
    requires allowed { cause stage.old.rehearsal step ≡ None }
    ensures leads { OnOk result (Leads (string_bytes text.new) stage.new) }
    ensures step { OnOk result (stage.new ≡ with_step stage.old step) }
    ensures err { IfErr result IsShort }
{
    let before = stage.world().sent();
    let line = Play::Act(Who::One(step.member()), act_of(stage, step, Naming::Short));
    play(alloc, stage, &line)?;
    let remark = remark_of(alloc, stage.world(), before, step)?;
    push_told(alloc, text, &Line::Play(line), &remark)?;
    Ok(())
}

// Writes what is there at the member.
pub(crate) fn push_fact(
    alloc: Global,
    text: &mut String,
    stage: &Stage,
    member: Member,
    fact: Fact,
) -> Result<(), AllocError>
    requires leads { Leads (string_bytes text.old) stage.now }
    requires member { IsTrue (is_member stage.now.rehearsal.setting.members member) }
    requires there { IsThere stage.now member fact }
    ensures { OnOk result (Leads (string_bytes text.new) stage.now) }
{
    // For its clauses.
    let _ = stage;
    let mut terms = Vec::new(alloc);
    terms.push(Term {
        when: When::Now,
        whom: Whom::One(member),
        claim: Claim::Fact(fact),
    })?;
    let line = Play::Expect(Goal { terms });
    push_told(alloc, text, &Line::Play(line), "")?;
    Ok(())
}

// Writes an empty line.
pub(crate) fn push_blank(alloc: Global, text: &mut String, stage: &Stage) -> Result<(), AllocError>
    requires { Leads (string_bytes text.old) stage.now }
    ensures { OnOk result (Leads (string_bytes text.new) stage.now) }
{
    let _ = stage;
    push_told(alloc, text, &Line::Blank, "")?;
    Ok(())
}
