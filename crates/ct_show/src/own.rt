//! The steps that a member may take by itself, and what a driver tries next.

ghost use Rattle.std.specs.Prelude.{◌≡◌, ◌++◌, [], ◌∷◌, filter, is_none, IfOk, OnOk};
ghost use Rattle.std.specs.Option.{option_to_list};
ghost use Rattle.ct_model.specs.Cause.{cause};
ghost use Rattle.ct_show.specs.Own.{enabled_steps, first_choices, first_receipt, is_apart, next_steps, own_steps, receipt_behind};
ghost use Rattle.ct_show.specs.Own.{told_refusal};

use ct_model::Step;
use ct_names::{Member, Refusal, Serial};
use ct_world::World;
use std::alloc::{AllocError, Global};

/// The member's own steps in the order in which a driver tries them, with these choices.
pub fn own_steps(alloc: Global, member: Member, choices: &[Step]) -> Result<Vec<Step>, AllocError>
    ensures { IfOk result (λ steps. steps.items ≡ own_steps member choices.now) }
{
    let mut steps = Vec::new(alloc);
    steps.extend_from_slice(&first_steps(member))?;
    steps.extend_from_slice(choices)?;
    steps.extend_from_slice(&last_steps(member))?;
    Ok(steps)
}

// The steps that a driver tries before a choice.
fn first_steps(member: Member) -> [Step; 3]
    ensures { result ≡ Step.Deliver member ∷ Step.Follow member ∷ Step.Begin member ∷ [] }
{
    [
        Step::Deliver(member),
        Step::Follow(member),
        Step::Begin(member),
    ]
}

// Those that it tries after one.
fn last_steps(member: Member) -> [Step; 4]
    ensures { result ≡ Step.Adopt member ∷ Step.Conclude member ∷ Step.Enter member ∷ Step.Suspect member ∷ [] }
{
    [
        Step::Adopt(member),
        Step::Conclude(member),
        Step::Enter(member),
        Step::Suspect(member),
    ]
}

/// The steps that the member may take by itself, in the order in which a driver tries them.
#[tactic(auto, unfolding(crate::specs::Own::enabled_steps))]
pub fn enabled_steps(alloc: Global, world: &World, member: Member) -> Result<Vec<Step>, AllocError>
    ensures { IfOk result (λ steps. steps.items ≡ enabled_steps world.now.rehearsal member) }
{
    let choices = choices(alloc, member, world.group().n())?;
    let steps = own_steps(alloc, member, &choices)?;
    enabled_of(alloc, world, &steps)
}

// Choose with each of so many first members.
fn choices(alloc: Global, member: Member, count: u8) -> Result<Vec<Step>, AllocError>
    ensures { IfOk result (λ steps. steps.items ≡ first_choices member count) }
{
    let mut steps = Vec::new(alloc);
    for i in 0..count {
        steps.push(Step::Choose(member, i + 1))?;
    }
    Ok(steps)
}

// Those of the steps that are allowed.
fn enabled_of(alloc: Global, world: &World, steps: &[Step]) -> Result<Vec<Step>, AllocError>
    ensures { IfOk result (λ list. list.items ≡ filter (λ step. is_none (cause world.now.rehearsal step)) steps.now) }
{
    steps
        .iter()
        .copied()
        .filter(|step| is_enabled(world, *step))
        .collect(alloc)
}

fn is_enabled(world: &World, step: Step) -> bool
    ensures { result ≡ is_none (cause world.now.rehearsal step) }
{
    world.enabled(&step).is_ok()
}

/// Why the step is refused, where it is one that the member could take next.
pub fn told_refusal(world: &World, step: Step) -> Option<Refusal>
    ensures { result ≡ told_refusal world.now.rehearsal step }
{
    match world.enabled(&step) {
        Ok(()) => None,
        Err(refusal) => {
            if is_apart(refusal) {
                None
            } else {
                Some(refusal)
            }
        }
    }
}

// Whether a step that is refused so is none of those that the member could take next.
fn is_apart(refusal: Refusal) -> bool
    ensures { result ≡ is_apart refusal }
{
    match refusal {
        Refusal::Crashed => true,
        Refusal::Busy => true,
        Refusal::Idle => true,
        Refusal::WrongPhase => true,
        Refusal::NotLargest => true,
        _ => false,
    }
}

/// The receipt of the first serial of the line, where it is allowed.
pub fn first_receipt(world: &World, member: Member, line: &[Serial]) -> Option<Step>
    ensures { result ≡ first_receipt world.now.rehearsal member line.now }
{
    let receipt = Step::Receive(member, *line.first()?);
    match world.enabled(&receipt) {
        Ok(()) => Some(receipt),
        Err(_) => None,
    }
}

/// What a driver does next: a step of the member's own, else the receipt; a suspicion with the receipt that it may come to.
pub fn next_steps(
    alloc: Global,
    own: Option<Step>,
    receipt: Option<Step>,
) -> Result<Vec<Step>, AllocError>
    ensures { IfOk result (λ steps. steps.items ≡ next_steps own receipt) }
{
    let mut steps = Vec::new(alloc);
    push_some(&mut steps, own)?;
    push_some(&mut steps, receipt_behind(own, receipt))?;
    Ok(steps)
}

fn push_some(steps: &mut Vec<Step>, step: Option<Step>) -> Result<(), AllocError>
    ensures { OnOk result (steps.new.items ≡ steps.old.items ++ option_to_list step) }
{
    match step {
        None => Ok(()),
        Some(step) => Ok(steps.push(step)?),
    }
}

// The receipt, where it is tried.
fn receipt_behind(own: Option<Step>, receipt: Option<Step>) -> Option<Step>
    ensures { result ≡ receipt_behind own receipt }
{
    match own {
        None => receipt,
        Some(Step::Suspect(_)) => receipt,
        Some(_) => None,
    }
}
