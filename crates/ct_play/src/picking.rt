//! Which envelopes a line names.

ghost use Rattle.std.specs.Prelude.{◌≡◌, slice_get, IfOk};
ghost use Rattle.ct_play.specs.Picking.{carried_of, carries, first_from, first_so, is_carried, is_from, is_gone, is_of, is_so, is_to};
ghost use Rattle.ct_play.specs.Picking.{is_waiting, last_so, picked, repeated, waiting_at, waiting_from, waits_at, was_sent};

use crate::stage::Stage;
use ct_grammar::{Carried, Pick};
use ct_names::{Member, MemberSet, Serial};
use ct_world::{Letter, Wire};
use std::alloc::{AllocError, Global};

// A line of so many is looked through faster than an index.
const SHORT_LINE: usize = 32;

/// What the wire carries.
pub fn carried_of(wire: &Wire) -> Carried
    ensures { result ≡ carried_of wire.now }
{
    match *wire {
        Wire::Data(message) => Carried::Data(message.origin(), message.number()),
        Wire::Est {
            instance,
            round,
            ..
        } => Carried::Est(instance, round),
        Wire::Prop {
            instance,
            round,
            ..
        } => Carried::Prop(instance, round),
        Wire::Ack {
            instance,
            round,
            ..
        } => Carried::Ack(instance, round),
        Wire::Nack {
            instance,
            round,
            ..
        } => Carried::Nack(instance, round),
        Wire::Dec {
            instance,
            round,
            ..
        } => Carried::Dec(instance, round),
    }
}

/// The serial that is picked for the member.
pub fn picked(stage: &Stage, member: Member, pick: Pick) -> Option<Serial>
    ensures { result ≡ picked stage.now.rehearsal member pick }
{
    match pick {
        Pick::Serial(serial) => Some(serial),
        Pick::First(carried, from) => first_so(stage, member, carried, from),
    }
}

// Whether an envelope that is so named waits at the member.
pub(crate) fn is_waiting(stage: &Stage, member: Member, pick: Pick) -> bool
    ensures { result ≡ is_waiting stage.now.rehearsal member pick }
{
    match pick {
        Pick::Serial(serial) => waits_at(stage, member, serial),
        Pick::First(carried, from) => first_so(stage, member, carried, from).is_some(),
    }
}

// The serial that is repeated for the member.
pub fn repeated(stage: &Stage, member: Member, pick: Pick) -> Option<Serial>
    ensures { result ≡ repeated stage.now.rehearsal member pick }
{
    match pick {
        Pick::Serial(serial) => Some(serial),
        Pick::First(carried, from) => last_so(stage, member, carried, from),
    }
}

// The serials that wait at the member; none where it is no member of the group.
#[tactic(auto, unfolding(crate::specs::Picking::waiting_at))]
pub fn waiting_at(stage: &Stage, member: Member) -> &[Serial]
    ensures { result.now ≡ waiting_at stage.now.rehearsal member }
{
    stage.world().waiting(member).unwrap_or(&[])
}

/// Whether the serial waits at the member.
pub fn waits_at(stage: &Stage, member: Member, serial: Serial) -> bool
    ensures { result ≡ waits_at stage.now.rehearsal member serial }
{
    stage.world().place(member, serial).is_some()
}

// The first serial in the member's waiting line whose envelope is so named.
#[tactic(auto, unfolding(crate::specs::Picking::first_so))]
fn first_so(stage: &Stage, member: Member, carried: Carried, from: Option<Member>) -> Option<Serial>
    ensures { result ≡ first_so stage.now.rehearsal member carried from }
{
    let line = waiting_at(stage, member);
    if line.len() > SHORT_LINE && stage.is_indexed() {
        let place = first_place(stage, member, carried, from);
        return line.get(place).copied();
    }
    line.iter()
        .copied()
        .find(|serial| is_so(stage, carried, from, *serial))
}

// Its place, found among the envelopes that carry this; the length of the line where there is none.
fn first_place(stage: &Stage, member: Member, carried: Carried, from: Option<Member>) -> usize
    ensures { first_so stage.now.rehearsal member carried from ≡ slice_get (waiting_at stage.now.rehearsal member) result }
{
    // For its clauses: what waits was sent to the member.
    let _ = stage.world().record();
    let mut first = waiting_at(stage, member).len();
    let mut serial = stage.last_to(member, carried, stage.world().sent());
    while serial > 0 {
        if is_so(stage, carried, from, serial) {
            let place = stage.world().place(member, serial);
            first = first.min(place.unwrap_or(first));
        }
        serial = stage.last_to(member, carried, serial - 1);
    }
    first
}

// The serials that wait at the member and that a step of one of these sent.
#[tactic(auto, unfolding(crate::specs::Picking::waiting_from))]
pub(crate) fn waiting_from(
    alloc: Global,
    stage: &Stage,
    member: Member,
    set: MemberSet,
) -> Result<Vec<Serial>, AllocError>
    ensures { IfOk result (λ list. list.items ≡ waiting_from stage.now.rehearsal member set) }
{
    waiting_at(stage, member)
        .iter()
        .copied()
        .filter(|serial| is_of(set, stage.sender(*serial)))
        .collect(alloc)
}

// The first of these.
#[tactic(auto, unfolding(crate::specs::Picking::first_from))]
pub(crate) fn first_from(stage: &Stage, member: Member, set: MemberSet) -> Option<Serial>
    ensures { result ≡ first_from stage.now.rehearsal member set }
{
    waiting_at(stage, member)
        .iter()
        .copied()
        .find(|serial| is_of(set, stage.sender(*serial)))
}

// Whether the sender is one of these.
fn is_of(set: MemberSet, sender: Option<Member>) -> bool
    ensures { result ≡ is_of set sender }
{
    match sender {
        None => false,
        Some(sender) => set.contains(sender),
    }
}

// The last envelope that was sent to the member, is so named and does not wait there; where each of these waits, the last of them.
#[tactic(auto, unfolding(crate::specs::Picking::last_so))]
fn last_so(stage: &Stage, member: Member, carried: Carried, from: Option<Member>) -> Option<Serial>
    ensures { result ≡ last_so stage.now.rehearsal member carried from }
{
    let mut last = None;
    let mut serial = stage.last_to(member, carried, stage.world().sent());
    while serial > 0 {
        if is_gone(stage, member, carried, from, serial) {
            return Some(serial);
        }
        let sent = was_sent(stage, member, carried, from, serial);
        last = last.or(sent.then_some(serial));
        serial = stage.last_to(member, carried, serial - 1);
    }
    last
}

// Whether the envelope of the serial was sent to the member, is so named and does not wait there.
#[tactic(auto, unfolding(crate::specs::Picking::is_gone))]
fn is_gone(
    stage: &Stage,
    member: Member,
    carried: Carried,
    from: Option<Member>,
    serial: Serial,
) -> bool
    ensures { result ≡ is_gone stage.now.rehearsal member carried from serial }
{
    was_sent(stage, member, carried, from, serial) && !waits_at(stage, member, serial)
}

// Whether the envelope of the serial was sent to the member and is so named.
#[tactic(auto, unfolding(crate::specs::Picking::was_sent))]
fn was_sent(
    stage: &Stage,
    member: Member,
    carried: Carried,
    from: Option<Member>,
    serial: Serial,
) -> bool
    ensures { result ≡ was_sent stage.now.rehearsal member carried from serial }
{
    is_to(member, stage.world().letter(serial)) && is_so(stage, carried, from, serial)
}

fn is_to(member: Member, letter: Option<Letter>) -> bool
    ensures { result ≡ is_to member letter }
{
    match letter {
        None => false,
        Some(letter) => letter.to == member,
    }
}

// Whether the envelope of the serial is so named.
#[tactic(auto, unfolding(crate::specs::Picking::is_so))]
pub(crate) fn is_so(stage: &Stage, carried: Carried, from: Option<Member>, serial: Serial) -> bool
    ensures { result ≡ is_so stage.now.rehearsal carried from serial }
{
    is_carried(carried, stage.world().letter(serial)) && is_from(from, stage.sender(serial))
}

pub(crate) fn is_carried(carried: Carried, letter: Option<Letter>) -> bool
    ensures { result ≡ is_carried carried letter }
{
    match letter {
        None => false,
        Some(letter) => carries(&letter.wire, carried),
    }
}

pub(crate) fn carries(wire: &Wire, carried: Carried) -> bool
    ensures { result ≡ carries wire.now carried }
{
    match (wire, carried) {
        (Wire::Data(message), Carried::Data(origin, number)) => {
            message.origin() == origin && message.number() == number
        }
        (
            Wire::Est {
                instance,
                round,
                ..
            },
            Carried::Est(k, r),
        ) => *instance == k && *round == r,
        (
            Wire::Prop {
                instance,
                round,
                ..
            },
            Carried::Prop(k, r),
        ) => *instance == k && *round == r,
        (
            Wire::Ack {
                instance,
                round,
                ..
            },
            Carried::Ack(k, r),
        ) => *instance == k && *round == r,
        (
            Wire::Nack {
                instance,
                round,
                ..
            },
            Carried::Nack(k, r),
        ) => *instance == k && *round == r,
        (
            Wire::Dec {
                instance,
                round,
                ..
            },
            Carried::Dec(k, r),
        ) => *instance == k && *round == r,
        _ => false,
    }
}

// Whether the sender is the one that is named, if one is.
fn is_from(from: Option<Member>, sender: Option<Member>) -> bool
    ensures { result ≡ is_from from sender }
{
    match (from, sender) {
        (None, _) => true,
        (Some(_), None) => false,
        (Some(from), Some(sender)) => sender == from,
    }
}
