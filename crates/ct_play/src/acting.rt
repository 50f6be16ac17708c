//! What members do.

ghost use Rattle.std.specs.Prelude.{◌≡◌, Ok, Some, OnOk, OnErr, IfErr};
ghost use Rattle.ct_grammar.specs.declared.act.Act.TheVariants.{LoseFrom};
ghost use Rattle.ct_play.specs.Acting.{acted, after_losses, after_step, done, done_by, done_by_each, first_loss, go_on, step_of};
ghost use Rattle.ct_play.specs.Acting.{stepped, there, unless_barred};
ghost use Rattle.ct_play.specs.Faults.{IsFaultOf};
ghost use Rattle.ct_play.specs.Parts.{IsBegun, IsDoneByFirst, IsLostOfFirst};
ghost use Rattle.ct_play.specs.Played.{IsLater};
ghost use Rattle.ct_play.specs.Who.{named};

use crate::cuts::barred;
use crate::line_fault::LineFault;
use crate::naming::named;
use crate::picking::{first_from, picked, repeated, waiting_from};
use crate::stage::Stage;
use ct_grammar::{Act, Pick, Who};
use ct_model::Step;
use ct_names::{Member, MemberSet, Serial};
use std::alloc::Global;

// ---- a step

/// The step that the member takes, of an act of several steps the first.
pub fn step_of(stage: &Stage, member: Member, act: Act) -> Result<Step, LineFault>
    ensures { result ≡ step_of stage.now.rehearsal member act }
{
    match act {
        Act::Submit(command) => Ok(Step::Submit(member, command)),
        Act::Receive(pick) => {
            let serial = there(member, pick, picked(stage, member, pick))?;
            Ok(Step::Receive(member, serial))
        }
        Act::Begin => Ok(Step::Begin(member)),
        Act::Enter => Ok(Step::Enter(member)),
        Act::Choose(from) => Ok(Step::Choose(member, from)),
        Act::Adopt => Ok(Step::Adopt(member)),
        Act::Suspect => Ok(Step::Suspect(member)),
        Act::Conclude => Ok(Step::Conclude(member)),
        Act::Deliver => Ok(Step::Deliver(member)),
        Act::Follow => Ok(Step::Follow(member)),
        Act::Crash => Ok(Step::Crash(member)),
        Act::Postpone(pick) => {
            let serial = there(member, pick, picked(stage, member, pick))?;
            Ok(Step::Postpone(member, serial))
        }
        Act::Lose(pick) => {
            let serial = there(member, pick, picked(stage, member, pick))?;
            Ok(Step::Lose(member, serial))
        }
        Act::Repeat(pick) => {
            let serial = there(member, pick, repeated(stage, member, pick))?;
            Ok(Step::Repeat(member, serial))
        }
        Act::LoseFrom(set) => first_loss(member, set, first_from(stage, member, set)),
    }
}

// The serial of the envelope that is named, where there is one.
fn there(member: Member, pick: Pick, serial: Option<Serial>) -> Result<Serial, LineFault>
    ensures { result ≡ there member pick serial }
{
    match serial {
        None => Err(LineFault::NotThere(member, pick)),
        Some(serial) => Ok(serial),
    }
}

// The loss of the first envelope from these, where there is one.
fn first_loss(member: Member, set: MemberSet, serial: Option<Serial>) -> Result<Step, LineFault>
    ensures { result ≡ first_loss member set serial }
{
    match serial {
        None => Err(LineFault::NoneFrom(member, set)),
        Some(serial) => Ok(Step::Lose(member, serial)),
    }
}

// Takes the step, unless the rules refuse it or the cut forbids it.
#[tactic(auto, using(crate::proofs::Later::later_once), unfolding(crate::specs::Acting::after_step))]
pub(crate) fn take(stage: &mut Stage, step: Step) -> Result<(), LineFault>
    ensures ok { OnOk result (after_step stage.old step ≡ Ok stage.new) }
    ensures err { IfErr result (IsFaultOf (after_step stage.old step)) }
    ensures still { OnErr result (stage.new ≡ stage.old) }
    ensures later { IsLater stage.old stage.new }
{
    match barred(stage, step) {
        None => stage.step(step),
        Some(fault) => Err(refused_or(stage, step, fault)),
    }
}

// The refusal of the step by the rules, and else this fault.
#[tactic(auto, unfolding(crate::specs::Acting::stepped))]
fn refused_or(stage: &Stage, step: Step, fault: LineFault) -> LineFault
    ensures { go_on (stepped stage.now step) (unless_barred (Some fault)) ≡ Err result }
{
    match stage.world().enabled(&step) {
        Ok(()) => fault,
        Err(refusal) => LineFault::Refused(step, refusal),
    }
}

// ---- a member

// The member does it.
pub(crate) fn act_one(
    alloc: Global,
    stage: &mut Stage,
    member: Member,
    act: Act,
) -> Result<(), LineFault>
    ensures ok { OnOk result (done stage.old member act ≡ Ok stage.new) }
    ensures err { IfErr result (IsFaultOf (done stage.old member act)) }
    ensures part { OnErr result (IsBegun stage.old member act stage.new) }
    ensures later { IsLater stage.old stage.new }
{
    match act {
        Act::LoseFrom(set) => lose_from(alloc, stage, member, set),
        _ => act_once(stage, member, act),
    }
}

// The member takes the step of the act.
fn act_once(stage: &mut Stage, member: Member, act: Act) -> Result<(), LineFault>
    ensures ok { OnOk result (go_on (step_of stage.old.rehearsal member act) (after_step stage.old) ≡ Ok stage.new) }
    ensures err { IfErr result (IsFaultOf (go_on (step_of stage.old.rehearsal member act) (after_step stage.old))) }
    ensures still { OnErr result (stage.new ≡ stage.old) }
    ensures later { IsLater stage.old stage.new }
{
    let step = step_of(stage, member, act)?;
    take(stage, step)
}

// The member loses all that waits there from these.
fn lose_from(
    alloc: Global,
    stage: &mut Stage,
    member: Member,
    set: MemberSet,
) -> Result<(), LineFault>
    ensures ok { OnOk result (done stage.old member (LoseFrom set) ≡ Ok stage.new) }
    ensures err { IfErr result (IsFaultOf (done stage.old member (LoseFrom set))) }
    ensures part { OnErr result (IsBegun stage.old member (LoseFrom set) stage.new) }
    ensures later { IsLater stage.old stage.new }
{
    first_loss(member, set, first_from(stage, member, set))?;
    let serials = waiting_from(alloc, stage, member, set)?;
    lose_each(stage, member, &serials)
}

// The member loses these.
fn lose_each(stage: &mut Stage, member: Member, serials: &[Serial]) -> Result<(), LineFault>
    ensures ok { OnOk result (after_losses member stage.old serials.now ≡ Ok stage.new) }
    ensures err { IfErr result (IsFaultOf (after_losses member stage.old serials.now)) }
    ensures part { OnErr result (IsLostOfFirst member stage.old serials.now stage.new) }
    ensures later { IsLater stage.old stage.new }
{
    for serial in serials {
        take(stage, Step::Lose(member, *serial))?;
    }
    Ok(())
}

// ---- each member in its turn

// The members that the line names do it.
#[tactic(auto, using(crate::proofs::Parts::done_parts))]
pub(crate) fn act(alloc: Global, stage: &mut Stage, who: Who, act: Act) -> Result<(), LineFault>
    ensures ok { OnOk result (acted stage.old who act ≡ Ok stage.new) }
    ensures err { IfErr result (IsFaultOf (acted stage.old who act)) }
    ensures part { OnErr result (IsDoneByFirst who act stage.old (named stage.old.rehearsal.setting.members who) stage.new) }
    ensures later { IsLater stage.old stage.new }
{
    let members = named(alloc, stage.world().group(), who)?;
    act_each(alloc, stage, &who, &act, &members)
}

// These do it.
pub(crate) fn act_each(
    alloc: Global,
    stage: &mut Stage,
    who: &Who,
    act: &Act,
    members: &[Member],
) -> Result<(), LineFault>
    ensures ok { OnOk result (done_by_each who.now act.now stage.old members.now ≡ Ok stage.new) }
    ensures err { IfErr result (IsFaultOf (done_by_each who.now act.now stage.old members.now)) }
    ensures part { OnErr result (IsDoneByFirst who.now act.now stage.old members.now stage.new) }
    ensures later { IsLater stage.old stage.new }
{
    for member in members {
        act_as(alloc, stage, who, act, *member)?;
    }
    Ok(())
}

// The member does it; of all, one that has crashed does nothing.
#[tactic(auto, using(crate::proofs::Later::later_same))]
fn act_as(
    alloc: Global,
    stage: &mut Stage,
    who: &Who,
    act: &Act,
    member: Member,
) -> Result<(), LineFault>
    ensures ok { OnOk result (done_by who.now act.now stage.old member ≡ Ok stage.new) }
    ensures err { IfErr result (IsFaultOf (done_by who.now act.now stage.old member)) }
    ensures part { OnErr result (IsBegun stage.old member act.now stage.new) }
    ensures later { IsLater stage.old stage.new }
{
    match who {
        Who::All if stage.world().crashed(member) => Ok(()),
        _ => act_one(alloc, stage, member, *act),
    }
}
