//! What is told of refusals.

ghost use Rattle.std.specs.Prelude.{◌≡◌, OnOk, position};
ghost use Rattle.ct_text.specs.Adds.{Adds};
ghost use Rattle.ct_judging.specs.Refusing.{crash_of, crash_text, is_crash_of, limit_of, limit_text, members_text, reason_text};
ghost use Rattle.ct_judging.specs.Refusing.{refused_text};

use crate::righting::{push_right, right_of};
use ct_model::Step;
use ct_names::{
    Limit, MAX_ENVELOPES, MAX_INSTANCES, MAX_ROUNDS, MAX_STEPS, MAX_SUBMISSIONS, Member, Refusal,
};
use ct_show::push_facts;
use ct_world::World;
use std::alloc::AllocError;

// The step that is refused: whose it is, the refusal, what is told of it, and what would be right.
#[tactic(auto, unfolding(ct_judging::specs::Refusing::refused_text))]
pub(crate) fn push_refused(
    text: &mut String,
    world: &World,
    step: Step,
    refusal: Refusal,
) -> Result<(), AllocError>
    ensures { OnOk result (Adds text.old text.new (refused_text world.now.rehearsal step refusal)) }
{
    let member = step.member();
    write!(text, "refused {member} {refusal}: ")?;
    push_reason(text, world, step, refusal)?;
    push_right(text, right_of(world, step, refusal))
}

// What is right, or when the member crashed, where an instance has nothing to do with the refusal; else the facts behind it.
fn push_reason(
    text: &mut String,
    world: &World,
    step: Step,
    refusal: Refusal,
) -> Result<(), AllocError>
    ensures { OnOk result (Adds text.old text.new (reason_text world.now.rehearsal step refusal)) }
{
    match refusal {
        Refusal::NoSuchMember => push_members(text, world),
        Refusal::Crashed => push_crash(text, crash_of(world.record(), step.member())),
        Refusal::BadCommand => text.push_str("a register is 0 to 15"),
        Refusal::Full(limit) => push_limit(text, limit_of(world, limit)),
        _ => push_facts(text, world, step, refusal),
    }
}

// Which members there are.
fn push_members(text: &mut String, world: &World) -> Result<(), AllocError>
    ensures { OnOk result (Adds text.old text.new (members_text world.now.rehearsal.setting.members)) }
{
    let n = world.group().n();
    write!(text, "members are 1 to {n}")
}

fn push_limit(text: &mut String, limit: usize) -> Result<(), AllocError>
    ensures { OnOk result (Adds text.old text.new (limit_text limit)) }
{
    write!(text, "{limit} at most")
}

// How much the limit allows.
pub(crate) fn limit_of(world: &World, limit: Limit) -> usize
    ensures { result ≡ limit_of world.now.rehearsal limit }
{
    match limit {
        Limit::Submissions => MAX_SUBMISSIONS as usize,
        Limit::Instances => MAX_INSTANCES as usize,
        Limit::Rounds => MAX_ROUNDS as usize,
        Limit::Envelopes => MAX_ENVELOPES,
        Limit::Cells => usize::from(world.cells()),
        Limit::Steps => MAX_STEPS,
    }
}

// When the member crashed.
fn push_crash(text: &mut String, step: Option<usize>) -> Result<(), AllocError>
    ensures { OnOk result (Adds text.old text.new (crash_text step)) }
{
    match step {
        None => Ok(()),
        Some(number) => write!(text, "in step {number}"),
    }
}

// The number of the step in which the member crashed.
#[tactic(auto, unfolding(ct_judging::specs::Refusing::crash_of))]
fn crash_of(steps: &[Step], member: Member) -> Option<usize>
    ensures { result ≡ crash_of steps.now member }
{
    match crash_place(steps, member) {
        None => None,
        Some(place) => Some(place + 1),
    }
}

fn crash_place(steps: &[Step], member: Member) -> Option<usize>
    ensures { result ≡ position (is_crash_of member) steps.now }
{
    steps.iter().position(|step| is_crash_of(member, *step))
}

fn is_crash_of(member: Member, step: Step) -> bool
    ensures { result ≡ is_crash_of member step }
{
    match step {
        Step::Crash(crashed) => crashed == member,
        _ => false,
    }
}
