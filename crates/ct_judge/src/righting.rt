//! What would be right in place of steps that are refused.

ghost use Rattle.std.specs.Prelude.{◌≡◌, OnOk, option_map};
ghost use Rattle.ct_text.specs.Adds.{Adds};
ghost use Rattle.ct_show.specs.Details.{size_of};
ghost use Rattle.ct_judging.specs.Rights.{choice_for, count_text, enough_for, larger_of, largest_heard, largest_of};
ghost use Rattle.ct_judging.specs.Rights.{last_proposal, proposal_in};
ghost use Rattle.ct_judging.specs.Rights.{phase_for, phase_hint, proposal_text, proposed_in, right_of, right_text, room_for, round_in};
ghost use Rattle.ct_judging.specs.Rights.{unheard_text, unless_heard};
ghost use Rattle.ct_judging.specs.Wording.{numbered_twice};

use crate::wording::push_number;
use ct_judging::Right;
use ct_model::{Phase, Step};
use ct_names::{Instance, Limit, MAX_CELLS, Member, MemberSet, Message, Refusal, Round};
use ct_text::{instance_of, phase_name, round_of};
use ct_world::{Letter, Wire, World};
use std::alloc::AllocError;

// What would be right in place of the step.
pub(crate) fn right_of(world: &World, step: Step, refusal: Refusal) -> Right
    ensures { result ≡ right_of world.now.rehearsal step refusal }
{
    match refusal {
        Refusal::Full(limit) => room_for(world, limit),
        Refusal::NotLargest => choice_for(world, step),
        Refusal::WrongPhase => phase_for(step),
        Refusal::TooFew => enough_for(world, step),
        Refusal::NoProposal => Right::Proposal {
            round: round_of(world, step.member()),
            last: last_proposal(world, step.member()),
        },
        _ => Right::Untold,
    }
}

fn room_for(world: &World, limit: Limit) -> Right
    ensures { result ≡ room_for world.now.rehearsal limit }
{
    match limit {
        Limit::Cells if world.cells() < MAX_CELLS => Right::MoreCells,
        _ => Right::Untold,
    }
}

// ---- the largest ts

fn largest_of(best: Option<(Member, Round)>) -> Right
    ensures { result ≡ largest_of best }
{
    match best {
        None => Right::Untold,
        Some((from, ts)) => Right::Largest { from, ts },
    }
}

fn choice_for(world: &World, step: Step) -> Right
    ensures { result ≡ choice_for world.now.rehearsal step }
{
    let largest = largest_of(largest_heard(world, step.member()));
    match step {
        Step::Choose(member, from) => unless_heard(from, world.heard_from(member, from), largest),
        _ => largest,
    }
}

// That the member was not heard, where it wasn't.
fn unless_heard(from: Member, heard: Option<(&[Message], Round)>, largest: Right) -> Right
    ensures { result ≡ unless_heard from (option_map (λ e. (e.0.now, e.1)) heard.entry) largest }
{
    match heard {
        None => Right::Unheard(from),
        Some(_) => largest,
    }
}

// The phase of the steps of this kind.
fn phase_for(step: Step) -> Right
    ensures { result ≡ phase_for step }
{
    match step {
        Step::Enter(_) => Right::Phase(Phase::Rest),
        Step::Choose(..) => Right::Phase(Phase::Gather),
        Step::Adopt(_) | Step::Suspect(_) => Right::Phase(Phase::Wait),
        Step::Conclude(_) => Right::Phase(Phase::Tally),
        _ => Right::Untold,
    }
}

// The member that was heard with the largest ts, and that.
fn largest_heard(world: &World, member: Member) -> Option<(Member, Round)>
    ensures { result ≡ largest_heard world.now.rehearsal member world.now.rehearsal.setting.members }
{
    let n = world.group().n();
    let mut best = None;
    for i in 0..n {
        best = larger_of(best, i + 1, world.heard_from(member, i + 1));
    }
    best
}

fn larger_of(
    best: Option<(Member, Round)>,
    from: Member,
    heard: Option<(&[Message], Round)>,
) -> Option<(Member, Round)>
    ensures { result ≡ larger_of best from (option_map (λ e. (e.0.now, e.1)) heard.entry) }
{
    match (best, heard) {
        (best, None) => best,
        (None, Some((_, ts))) => Some((from, ts)),
        (Some((_, largest)), Some((_, ts))) if largest < ts => Some((from, ts)),
        (best, _) => best,
    }
}

// ---- how many are needed

fn enough_for(world: &World, step: Step) -> Right
    ensures { result ≡ enough_for world.now.rehearsal step }
{
    let needed = world.group().majority();
    match step {
        Step::Choose(member, _) => Right::Estimates {
            heard: size_of(world.heard(member)),
            needed,
        },
        Step::Conclude(member) => Right::Replies {
            came: size_of(world.replied(member)),
            needed,
        },
        _ => Right::Untold,
    }
}

#[tactic(auto, unfolding(ct_show::specs::Details::size_of))]
fn size_of(set: Option<MemberSet>) -> u8
    ensures { result ≡ size_of set }
{
    match set {
        None => 0,
        Some(set) => set.len(),
    }
}

// ---- a proposal of another round

// The round of the last proposal of its instance that the member received.
#[tactic(auto, unfolding(ct_judging::specs::Rights::last_proposal))]
fn last_proposal(world: &World, member: Member) -> Option<Round>
    ensures { result ≡ last_proposal world.now.rehearsal member }
{
    let mut last = None;
    for step in world.record() {
        last = proposed_in(world, member, *step).or(last);
    }
    last
}

fn proposed_in(world: &World, member: Member, step: Step) -> Option<Round>
    ensures { result ≡ proposed_in world.now.rehearsal member step }
{
    match step {
        Step::Receive(to, serial) if to == member => {
            proposal_in(instance_of(world, member), world.letter(serial))
        }
        _ => None,
    }
}

fn proposal_in(instance: Instance, letter: Option<Letter>) -> Option<Round>
    ensures { result ≡ proposal_in instance letter }
{
    round_in(instance, &letter?.wire)
}

fn round_in(instance: Instance, wire: &Wire) -> Option<Round>
    ensures { result ≡ round_in instance wire.now }
{
    match *wire {
        Wire::Prop {
            instance: of,
            round,
            ..
        } if of == instance => Some(round),
        _ => None,
    }
}

// ---- its text

// What would be right.
#[tactic(auto, unfolding(ct_judging::specs::Rights::right_text))]
pub(crate) fn push_right(text: &mut String, right: Right) -> Result<(), AllocError>
    ensures { OnOk result (Adds text.old text.new (right_text right)) }
{
    match right {
        Right::Untold => Ok(()),
        Right::MoreCells => text.push_str("; cells 1024 at the top gives room for more"),
        Right::Phase(phase) => push_phase(text, phase),
        Right::Unheard(member) => push_unheard(text, member),
        Right::Largest { from, ts } => push_twice(
            text,
            "; the largest ts heard is ",
            ts,
            ", from ",
            u32::from(from),
        ),
        Right::Estimates { heard, needed } => push_count(text, heard, " heard, ", needed),
        Right::Replies { came, needed } => push_count(text, came, " replied, ", needed),
        Right::Proposal { round, last } => push_proposal(text, round, last),
    }
}

#[tactic(auto, unfolding(ct_judging::specs::Rights::phase_hint))]
fn push_phase(text: &mut String, phase: Phase) -> Result<(), AllocError>
    ensures { OnOk result (Adds text.old text.new (phase_hint phase)) }
{
    let name = phase_name(phase);
    write!(text, "; a step of the phase {name}")
}

#[tactic(auto, unfolding(ct_judging::specs::Rights::unheard_text))]
fn push_unheard(text: &mut String, member: Member) -> Result<(), AllocError>
    ensures { OnOk result (Adds text.old text.new (unheard_text member)) }
{
    write!(text, "; {member} was not heard")
}

fn push_count(text: &mut String, count: u8, words: &str, needed: u8) -> Result<(), AllocError>
    ensures { OnOk result (Adds text.old text.new (count_text count words.now needed)) }
{
    write!(text, "; {count}{words}{needed} needed")
}

fn push_proposal(text: &mut String, round: Round, last: Option<Round>) -> Result<(), AllocError>
    ensures { OnOk result (Adds text.old text.new (proposal_text round last)) }
{
    match last {
        None => push_number(text, "; has no proposal of round ", round as usize),
        Some(last) => push_twice(
            text,
            "; has the proposal of round ",
            last,
            ", none of round ",
            round,
        ),
    }
}

// The words, a number, other words, and a number.
#[tactic(auto, unfolding(ct_judging::specs::Wording::numbered_twice))]
fn push_twice(
    text: &mut String,
    words: &str,
    first: u32,
    then: &str,
    second: u32,
) -> Result<(), AllocError>
    ensures { OnOk result (Adds text.old text.new (numbered_twice words.now first then.now second)) }
{
    push_number(text, words, first as usize)?;
    push_number(text, then, second as usize)
}
