//! What steps come to.

ghost use Rattle.std.specs.Prelude.{◌≡◌, ◌==◌, ◌&&◌, ◌+◌, OnOk, length, option_map};
ghost use Rattle.std.specs.List.{list_all, zip};
ghost use Rattle.ct_text.specs.Adds.{Adds};
ghost use Rattle.ct_play.specs.Facts.{is_among};
ghost use Rattle.ct_play.specs.Outcomes.{alone_of, are_first, are_listed, batch_by, came_text, carried_by, carried_of, estimate_of};
ghost use Rattle.ct_play.specs.Outcomes.{is_stated, load_of, named_count, outcome};

use crate::facts::{each_named, is_among, is_named};
use ct_grammar::{Listed, Name, Statement};
use ct_model::Step;
use ct_names::{Command, Member, Message, Round, Serial};
use ct_print::push_command;
use ct_text::{instance_of, push_set};
use ct_world::{Letter, Wire, World};
use std::alloc::AllocError;

/// What a step came to; its messages stand beside it.
#[derive(Clone, Copy, Debug, PartialEq, Eq)]
pub enum Came {
    /// Nothing.
    Nothing,
    /// The command of a message.
    Command(Command),
    /// A value.
    Value,
    /// An estimate of this ts.
    Estimate(Round),
    /// A batch, in order.
    Batch,
}

/// What the step came to, after which the world is this, with its messages: what the envelope carries that it received; what it
/// proposes, or sends, or keeps; the estimate with which it concludes the round; the batch. Nothing of other steps.
pub fn outcome(world: &World, step: Step) -> (Came, &[Message])
    ensures { (result.0, result.1.now) ≡ outcome world.now.rehearsal step }
{
    match step {
        Step::Receive(_, serial) => carried_of(world, serial),
        Step::Begin(member) => alone_of(world.estimate(member)),
        Step::Enter(member) => estimate_of(world.estimate(member)),
        Step::Choose(member, from) => alone_of(world.heard_from(member, from)),
        Step::Adopt(member) => estimate_of(world.estimate(member)),
        Step::Conclude(member) => alone_of(world.estimate(member)),
        Step::Deliver(member) => (Came::Batch, batch_by(world, member)),
        Step::Follow(member) => (Came::Batch, batch_by(world, member)),
        _ => (Came::Nothing, &[]),
    }
}

// The batch of the last instance that the member began.
#[tactic(auto, unfolding(crate::specs::Outcomes::batch_by))]
fn batch_by(world: &World, member: Member) -> &[Message]
    ensures { result.now ≡ batch_by world.now.rehearsal member }
{
    world.batch(instance_of(world, member)).unwrap_or(&[])
}

// An estimate and its ts.
fn estimate_of(there: Option<(&[Message], Round)>) -> (Came, &[Message])
    ensures { (result.0, result.1.now) ≡ estimate_of (option_map (λ e. (e.0.now, e.1)) there.entry) }
{
    match there {
        None => (Came::Nothing, &[]),
        Some((value, ts)) => (Came::Estimate(ts), value),
    }
}

// The value of an estimate alone.
fn alone_of(there: Option<(&[Message], Round)>) -> (Came, &[Message])
    ensures { (result.0, result.1.now) ≡ alone_of (option_map (λ e. (e.0.now, e.1)) there.entry) }
{
    match there {
        None => (Came::Nothing, &[]),
        Some((value, _)) => (Came::Value, value),
    }
}

// What the envelope of the serial carries.
#[tactic(auto, unfolding(crate::specs::Outcomes::carried_of))]
fn carried_of(world: &World, serial: Serial) -> (Came, &[Message])
    ensures { (result.0, result.1.now) ≡ carried_of world.now.rehearsal serial }
{
    carried_by(world.letter(serial), world.value(serial).unwrap_or(&[]))
}

fn carried_by(letter: Option<Letter>, value: &[Message]) -> (Came, &[Message])
    ensures { (result.0, result.1.now) ≡ carried_by letter value.entry.now }
{
    match letter {
        None => (Came::Nothing, &[]),
        Some(letter) => load_of(&letter.wire, value),
    }
}

fn load_of<'v>(wire: &Wire, value: &'v [Message]) -> (Came, &'v [Message])
    ensures { (result.0, result.1.now) ≡ load_of wire.now value.entry.now }
{
    match *wire {
        Wire::Data(message) => (Came::Command(message.command()), &[]),
        Wire::Est { ts, .. } => (Came::Estimate(ts), value),
        Wire::Prop { .. } => (Came::Value, value),
        Wire::Ack { .. } => (Came::Nothing, &[]),
        Wire::Nack { .. } => (Came::Nothing, &[]),
        Wire::Dec { .. } => (Came::Value, value),
    }
}

/// Appends it in words, as `{1.1,2.1} ts 0`; of many messages the first ones, and how many more there are.
pub fn push_came(text: &mut String, came: (Came, &[Message])) -> Result<(), AllocError>
    ensures { OnOk result (Adds text.old text.new (came_text (came.entry.0, came.entry.1.now))) }
{
    let (came, messages) = came;
    match came {
        Came::Nothing => Ok(()),
        Came::Command(command) => push_command(text, command),
        Came::Value => push_set(text, messages),
        Came::Estimate(ts) => {
            push_set(text, messages)?;
            write!(text, " ts {ts}")
        }
        Came::Batch => push_set(text, messages),
    }
}

/// Whether it came to what is stated: to that command; to that value, in any order, with the ts where one is stated; to that batch,
/// in its order. Where a value is stated in part, those that are named are messages of it, and there are so many more.
pub fn is_stated(came: (Came, &[Message]), said: &Statement) -> bool
    ensures { result ≡ is_stated (came.entry.0, came.entry.1.now) said.now }
{
    let (came, messages) = came;
    match (came, said) {
        (Came::Command(command), Statement::Command(other)) => command == *other,
        (Came::Value, Statement::Value(listed)) => are_listed(listed, messages),
        (Came::Estimate(_), Statement::Value(listed)) => are_listed(listed, messages),
        (Came::Estimate(ts), Statement::Estimate(listed, other)) => {
            are_listed(listed, messages) && ts == *other
        }
        (Came::Batch, Statement::Value(listed)) => are_first(listed, messages),
        _ => false,
    }
}

// Whether as many of the messages as are named have one of the names, and there are so many more.
fn are_listed(listed: &Listed, messages: &[Message]) -> bool
    ensures { result ≡ are_listed listed.now messages.now }
{
    let names = listed.names.as_slice();
    named_count(names, messages) == names.len() && is_all(listed, messages)
}

// Whether the first messages have these names, in this order, and there are so many more.
fn are_first(listed: &Listed, messages: &[Message]) -> bool
    ensures { result ≡ are_first listed.now messages.now }
{
    each_named(listed.names.as_slice(), messages) && is_all(listed, messages)
}

// Whether there are as many messages as the line says.
fn is_all(listed: &Listed, messages: &[Message]) -> bool
    ensures { result ≡ (length listed.now.names + listed.now.more == length messages.now) }
{
    let names = listed.names.as_slice().len();
    match messages.len().checked_sub(names) {
        None => false,
        Some(more) => more == listed.more as usize,
    }
}

// How many of the messages have one of these names.
fn named_count(names: &[Name], messages: &[Message]) -> usize
    ensures { result ≡ named_count names.now messages.now }
{
    let mut count = 0;
    for message in messages {
        if has_name(names, count, message) {
            count += 1;
        }
    }
    count
}

// Whether the message has one of these names; the one at this place is tried first, so that names in the order of the messages are
// found at once.
fn has_name(names: &[Name], place: usize, message: &Message) -> bool
    ensures { result ≡ is_among names.now message.now }
{
    if let Some(name) = names.get(place) {
        if is_named(*name, message) {
            return true;
        }
    }
    is_among(names, message)
}
