//! How lines name envelopes.

ghost use Rattle.std.specs.Prelude.{◌≡◌, true, Some};
ghost use Rattle.ct_play.specs.Picking.{picked, repeated, waits_at};
ghost use Rattle.ct_print.specs.Writable.{PickFits};
ghost use Rattle.ct_listing.specs.Naming.{few_since, is_it, is_recent, is_sought, name_of, name_with, repeated_name, short_name};
ghost use Rattle.ct_listing.specs.Naming.{waiting_name};

use ct_grammar::{Carried, Pick};
use ct_names::{Member, Serial};
use ct_play::{Stage, carried_of, picked, repeated, waits_at};

/// How many envelopes may have been sent since one that is repeated and has a short name: all of them are looked at.
pub const MOST_SINCE: u32 = 1_000;

/// When the name of an envelope has its sender.
#[derive(Clone, Copy, Debug, PartialEq, Eq)]
pub enum Naming {
    /// Where the sender is content, or another envelope that carries the same would be taken.
    Short,
    /// Always.
    Full,
}

// The name of the envelope of a serial that waits at the member; its serial where both names are another one's.
#[tactic(auto, unfolding(crate::specs::Naming::waiting_name))]
pub(crate) fn waiting_name(stage: &Stage, member: Member, serial: Serial, naming: Naming) -> Pick
    ensures is { result ≡ waiting_name naming stage.now.rehearsal member serial }
    ensures named { picked stage.now.rehearsal member result ≡ Some serial }
    ensures fits { PickFits result }
{
    let name = name_of(stage, serial, naming);
    let full = name_of(stage, serial, Naming::Full);
    if is_it(picked(stage, member, name), serial) {
        name
    } else if is_it(picked(stage, member, full), serial) {
        full
    } else {
        Pick::Serial(serial)
    }
}

// The name of the envelope of a serial that the member gets again.
#[tactic(auto, unfolding(crate::specs::Naming::repeated_name))]
pub(crate) fn repeated_name(stage: &Stage, member: Member, serial: Serial, naming: Naming) -> Pick
    ensures is { result ≡ repeated_name naming stage.now.rehearsal member serial }
    ensures named { repeated stage.now.rehearsal member result ≡ Some serial }
    ensures fits { PickFits result }
{
    let name = name_of(stage, serial, naming);
    let full = name_of(stage, serial, Naming::Full);
    if !is_sought(stage, member, serial, naming) {
        Pick::Serial(serial)
    } else if is_it(repeated(stage, member, name), serial) {
        name
    } else if is_it(repeated(stage, member, full), serial) {
        full
    } else {
        Pick::Serial(serial)
    }
}

// Whether it is looked for among all that were sent.
fn is_sought(stage: &Stage, member: Member, serial: Serial, naming: Naming) -> bool
    ensures { result ≡ is_sought naming stage.now.rehearsal member serial }
{
    match naming {
        Naming::Short => is_recent(stage, member, serial),
        Naming::Full => true,
    }
}

// Whether few envelopes were sent since, and this one doesn't wait at the member.
fn is_recent(stage: &Stage, member: Member, serial: Serial) -> bool
    ensures { result ≡ is_recent stage.now.rehearsal member serial }
{
    few_since(stage, serial) && !waits_at(stage, member, serial)
}

// Whether few envelopes were sent since.
fn few_since(stage: &Stage, serial: Serial) -> bool
    ensures { result ≡ few_since stage.now.rehearsal serial }
{
    stage.world().sent().saturating_sub(serial) <= MOST_SINCE
}

// Whether the serial is this one.
fn is_it(found: Option<Serial>, serial: Serial) -> bool
    ensures is { result ≡ is_it found serial }
    ensures some { result ≡ true → found ≡ Some serial }
{
    match found {
        None => false,
        Some(found) => found == serial,
    }
}

// The name of the envelope of a serial by what it carries; its serial where it was not sent.
#[tactic(auto, unfolding(crate::specs::Naming::name_of))]
fn name_of(stage: &Stage, serial: Serial, naming: Naming) -> Pick
    ensures { result ≡ name_of naming stage.now.rehearsal serial }
{
    match stage.world().letter(serial) {
        None => Pick::Serial(serial),
        Some(letter) => name_with(naming, carried_of(&letter.wire), stage.sender(serial)),
    }
}

fn name_with(naming: Naming, carried: Carried, from: Option<Member>) -> Pick
    ensures { result ≡ name_with naming carried from }
{
    match naming {
        Naming::Short => short_name(carried, from),
        Naming::Full => Pick::First(carried, from),
    }
}

// The name without the sender, unless that is content.
fn short_name(carried: Carried, from: Option<Member>) -> Pick
    ensures { result ≡ short_name carried from }
{
    match carried {
        Carried::Data(..) | Carried::Prop(..) | Carried::Dec(..) => Pick::First(carried, None),
        Carried::Est(..) | Carried::Ack(..) | Carried::Nack(..) => Pick::First(carried, from),
    }
}
