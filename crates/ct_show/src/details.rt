//! What a step read, and what it came to, shown. The world is the one after the step.

ghost use Rattle.std.specs.Prelude.{◌≡◌, ◌≤◌, OnOk};
ghost use Rattle.ct_text.specs.Adds.{Adds};
ghost use Rattle.ct_show.specs.Details.{coordinator_text};
ghost use Rattle.ct_show.specs.Details.{size_of, message_of, message_in, submit_text, begin_text};
ghost use Rattle.ct_show.specs.Details.{enter_text, choose_text, adopt_text, suspect_text, decision_text};
ghost use Rattle.ct_show.specs.Details.{acks_text, conclude_text, delivery_text, letter_step, detail_text, letter_of};

use crate::acts::push_command;
use crate::wires::{push_round, push_serial};
use ct_model::Step;
use ct_names::{Command, MAX_ENVELOPES, Member, MemberSet, Serial};
use ct_text::{
    coordinator_of, instance_of, push_batch, push_estimate, push_estimate_alone, push_estimate_of,
    round_of,
};
use ct_world::{Letter, Wire, World};
use std::alloc::AllocError;

/// What the step did, as its line tells it, where so many envelopes had been sent before it.
pub fn push_detail(
    text: &mut String,
    world: &World,
    before: u32,
    step: Step,
) -> Result<(), AllocError>
    requires { before ≤ MAX_ENVELOPES }
    ensures { OnOk result (Adds text.old text.new (detail_text world.now.rehearsal before step)) }
{
    match step {
        Step::Submit(_, command) => push_submit(text, world, before, command),
        Step::Receive(_, serial) => push_letter_step(text, "receive  ", world, serial),
        Step::Begin(member) => push_begin(text, world, member),
        Step::Enter(member) => push_enter(text, world, member),
        Step::Choose(member, from) => push_choose(text, world, member, from),
        Step::Adopt(member) => push_adopt(text, world, member),
        Step::Suspect(member) => push_suspect(text, world, member),
        Step::Conclude(member) => push_conclude(text, world, before, member),
        Step::Deliver(member) => push_delivery(text, "deliver  ", world, member),
        Step::Follow(member) => push_delivery(text, "follow   ", world, member),
        Step::Crash(_) => text.push_str("crash"),
        Step::Postpone(_, serial) => push_letter_step(text, "postpone ", world, serial),
        Step::Lose(_, serial) => push_letter_step(text, "lose     ", world, serial),
        Step::Repeat(_, serial) => push_letter_step(text, "repeat   ", world, serial),
    }
}

/// What the letters of steps stand for, in the words of a legend, of those up to a Conclude; a receipt is a dot there.
pub const LETTERS: &str =
    "S submit, dot receive, B begin, E enter a round, C choose, A adopt, N suspect,\n K conclude (filled: decides)";

/// The same of the other steps.
pub const OTHER_LETTERS: &str = "D deliver, F follow, X crash, P postpone, L lose, R repeat";

/// The letter that stands for a step in a picture; none for a receipt.
pub fn letter_of(step: Step) -> &'static str
    ensures { result.now ≡ letter_of step }
{
    match step {
        Step::Submit(_, _) => "S",
        Step::Receive(_, _) => "",
        Step::Begin(_) => "B",
        Step::Enter(_) => "E",
        Step::Choose(_, _) => "C",
        Step::Adopt(_) => "A",
        Step::Suspect(_) => "N",
        Step::Conclude(_) => "K",
        Step::Deliver(_) => "D",
        Step::Follow(_) => "F",
        Step::Crash(_) => "X",
        Step::Postpone(_, _) => "P",
        Step::Lose(_, _) => "L",
        Step::Repeat(_, _) => "R",
    }
}

// A step on an envelope.
#[tactic(auto, unfolding(crate::specs::Details::letter_step))]
fn push_letter_step(
    text: &mut String,
    name: &str,
    world: &World,
    serial: Serial,
) -> Result<(), AllocError>
    ensures { OnOk result (Adds text.old text.new (letter_step name.now world.now.rehearsal serial)) }
{
    text.push_str(name)?;
    push_serial(text, world, serial)
}

// How many members the set has; none where there is no set.
#[tactic(auto, unfolding(crate::specs::Details::size_of))]
fn size_of(set: Option<MemberSet>) -> u8
    ensures { result ≡ size_of set }
{
    match set {
        Some(set) => set.len(),
        None => 0,
    }
}

// A message and a sign, where the envelope carries a message.
fn push_message(text: &mut String, letter: Option<Letter>) -> Result<(), AllocError>
    ensures { OnOk result (Adds text.old text.new (message_in letter)) }
{
    match letter {
        None => Ok(()),
        Some(letter) => push_message_of(text, &letter.wire),
    }
}

fn push_message_of(text: &mut String, wire: &Wire) -> Result<(), AllocError>
    ensures { OnOk result (Adds text.old text.new (message_of wire.now)) }
{
    match *wire {
        Wire::Data(message) => write!(text, " as {message}"),
        _ => Ok(()),
    }
}

#[tactic(auto, unfolding(crate::specs::Details::submit_text))]
fn push_submit(
    text: &mut String,
    world: &World,
    before: u32,
    command: Command,
) -> Result<(), AllocError>
    requires { before ≤ MAX_ENVELOPES }
    ensures { OnOk result (Adds text.old text.new (submit_text world.now.rehearsal before command)) }
{
    text.push_str("submit   ")?;
    push_command(text, command)?;
    push_message(text, world.letter(before + 1))
}

#[tactic(auto, unfolding(crate::specs::Details::begin_text))]
fn push_begin(text: &mut String, world: &World, member: Member) -> Result<(), AllocError>
    ensures { OnOk result (Adds text.old text.new (begin_text world.now.rehearsal member)) }
{
    let instance = instance_of(world, member);
    write!(text, "begin    instance {instance} proposes ")?;
    push_estimate_alone(text, world, member)
}

#[tactic(auto, unfolding(crate::specs::Details::coordinator_text))]
pub(crate) fn push_coordinator(text: &mut String, coordinator: Member) -> Result<(), AllocError>
    ensures { OnOk result (Adds text.old text.new (coordinator_text coordinator)) }
{
    write!(text, ", coordinator {coordinator}")
}

#[tactic(auto, unfolding(crate::specs::Details::enter_text))]
fn push_enter(text: &mut String, world: &World, member: Member) -> Result<(), AllocError>
    ensures { OnOk result (Adds text.old text.new (enter_text world.now.rehearsal member)) }
{
    let instance = instance_of(world, member);
    let round = round_of(world, member);
    let coordinator = coordinator_of(world, member);
    text.push_str("enter    round ")?;
    push_round(text, instance, round)?;
    push_coordinator(text, coordinator)
}

#[tactic(auto, unfolding(crate::specs::Details::choose_text))]
fn push_choose(
    text: &mut String,
    world: &World,
    member: Member,
    from: Member,
) -> Result<(), AllocError>
    ensures { OnOk result (Adds text.old text.new (choose_text world.now.rehearsal member from)) }
{
    write!(text, "choose   estimate of {from}: ")?;
    push_estimate(text, world.heard_from(member, from))
}

#[tactic(auto, unfolding(crate::specs::Details::adopt_text))]
fn push_adopt(text: &mut String, world: &World, member: Member) -> Result<(), AllocError>
    ensures { OnOk result (Adds text.old text.new (adopt_text world.now.rehearsal member)) }
{
    text.push_str("adopt    ")?;
    push_estimate_of(text, world, member)
}

#[tactic(auto, unfolding(crate::specs::Details::suspect_text))]
fn push_suspect(text: &mut String, world: &World, member: Member) -> Result<(), AllocError>
    ensures { OnOk result (Adds text.old text.new (suspect_text world.now.rehearsal member)) }
{
    let coordinator = coordinator_of(world, member);
    write!(text, "suspect  member {coordinator}; keeps ")?;
    push_estimate_of(text, world, member)
}

// Where something was sent since so many envelopes were, the member's estimate is decided.
#[tactic(auto, unfolding(crate::specs::Details::decision_text))]
fn push_decision(
    text: &mut String,
    world: &World,
    before: u32,
    member: Member,
) -> Result<(), AllocError>
    ensures { OnOk result (Adds text.old text.new (decision_text world.now.rehearsal before member)) }
{
    if world.sent() == before {
        return text.push_str(": no decision");
    }
    text.push_str(": decides ")?;
    push_estimate_alone(text, world, member)
}

// After the word how many acked the member's round, of those that replied.
#[tactic(auto, unfolding(crate::specs::Details::acks_text))]
pub(crate) fn push_acks(
    text: &mut String,
    word: &str,
    world: &World,
    member: Member,
) -> Result<(), AllocError>
    ensures { OnOk result (Adds text.old text.new (acks_text word.now world.now.rehearsal member)) }
{
    let acks = size_of(world.acked(member));
    let replies = size_of(world.replied(member));
    write!(text, "{word} acks {acks} of {replies}")
}

#[tactic(auto, unfolding(crate::specs::Details::conclude_text))]
fn push_conclude(
    text: &mut String,
    world: &World,
    before: u32,
    member: Member,
) -> Result<(), AllocError>
    ensures { OnOk result (Adds text.old text.new (conclude_text world.now.rehearsal before member)) }
{
    push_acks(text, "conclude", world, member)?;
    push_decision(text, world, before, member)
}

// A step that delivers the batch of an instance.
#[tactic(auto, unfolding(crate::specs::Details::delivery_text))]
fn push_delivery(
    text: &mut String,
    name: &str,
    world: &World,
    member: Member,
) -> Result<(), AllocError>
    ensures { OnOk result (Adds text.old text.new (delivery_text name.now world.now.rehearsal member)) }
{
    let instance = instance_of(world, member);
    write!(text, "{name}instance {instance}: ")?;
    push_batch(text, world, instance)
}
