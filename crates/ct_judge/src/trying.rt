//! The stages on which the acts of lines are tried.

ghost use Rattle.std.specs.Prelude.{◌≡◌, ◌-◌, Ok, OnOk, IfOk};
ghost use Rattle.ct_play.specs.Acting.{done};
ghost use Rattle.ct_judging.specs.Telling.{done_by_first, done_if_named};

use ct_grammar::{Act, Play, Who};
use ct_names::Member;
use ct_play::{Stage, ended, play};
use std::alloc::{AllocError, Global};

// The stage on which the member tries the act of a line: made again, and after the members before it did it that the line names.
pub(crate) fn behind_first(
    alloc: Global,
    stage: &Stage,
    who: &Who,
    act: &Act,
    member: Member,
) -> Result<Stage, AllocError>
    ensures { IfOk result (λ tried. done_by_first who.now act.now stage.now (member - 1) ≡ Ok tried) }
{
    let Ok(mut tried) = ended(alloc, stage, &Play::Act(*who, *act)) else {
        return Err(AllocError);
    };
    act_first(alloc, &mut tried, who, act, member.saturating_sub(1))?;
    Ok(tried)
}

// As many first members do it, each that the line names. They did it before, so only memory is refused.
fn act_first(
    alloc: Global,
    stage: &mut Stage,
    who: &Who,
    act: &Act,
    count: u8,
) -> Result<(), AllocError>
    ensures { OnOk result (done_by_first who.now act.now stage.old count ≡ Ok stage.new) }
{
    for i in 0..count {
        act_if_named(alloc, stage, who, act, i + 1)?;
    }
    Ok(())
}

// The member does it, if the line names it; of all, one that has crashed does nothing.
fn act_if_named(
    alloc: Global,
    stage: &mut Stage,
    who: &Who,
    act: &Act,
    member: Member,
) -> Result<(), AllocError>
    ensures { OnOk result (done_if_named who.now act.now stage.old member ≡ Ok stage.new) }
{
    match who {
        Who::One(_) => Ok(()),
        Who::Some(set) if !set.contains(member) => Ok(()),
        Who::All if stage.world().crashed(member) => Ok(()),
        _ => act_alone(alloc, stage, act, member),
    }
}

fn act_alone(alloc: Global, stage: &mut Stage, act: &Act, member: Member) -> Result<(), AllocError>
    ensures { OnOk result (done stage.old member act.now ≡ Ok stage.new) }
{
    match play(alloc, stage, &Play::Act(Who::One(member), *act)) {
        Ok(()) => Ok(()),
        Err(_) => Err(AllocError),
    }
}
