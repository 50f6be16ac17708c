//! An arrow for each envelope that is received or lost, and the beginning of one for each other.

ghost use Rattle.std.specs.Prelude.{◌≡◌, ◌<◌, ◌+◌, ◌-◌, ◌^◌, length, OnOk};
ghost use Rattle.ct_text.specs.Adds.{Adds};
ghost use Rattle.ct_show.specs.Wires.{letter_at};
ghost use Rattle.ct_diagram.specs.Arrows.{kind_of, sender_at, grid_of, end_class, begun_at, begun_by, begun_word, begun_in, before_text};
ghost use Rattle.ct_diagram.specs.Arrows.{begun_text, end_word, end_text, opening_text, way_text, who_text, arrow_text, arrow_at, asked};
ghost use Rattle.ct_diagram.specs.Arrows.{taken_text, short_text, last_text, stub_arrow, stub_at, returned_text, first_stubs, arrows};
ghost use Rattle.ct_diagram.specs.Trail.{returned, taken};

use crate::drawn::Drawn;
use crate::grid::Grid;
use crate::routes::{push_route, push_stub};
use crate::trail::{is_taken, origin, returned, taken};
use crate::window::Window;
use ct_model::Step;
use ct_names::{Member, Serial};
use ct_show::push_serial;
use ct_world::{Letter, Wire, World};
use std::alloc::AllocError;

// What is drawn of envelopes at the world's last step: the arrow to it, and the beginnings of those that no later step ends.
pub(crate) fn push_arrows(
    text: &mut String,
    world: &World,
    window: &Window,
    senders: &[Member],
    trail: &[Drawn],
    drawn: Drawn,
    later: &[Step],
) -> Result<(), AllocError>
    requires { drawn.number + length later.now < 2 ^ 63 }
    ensures { OnOk result (Adds text.old text.new
        (arrows world.now.rehearsal window.now senders.now trail.now drawn later.now)) }
{
    push_taken(text, world, window, senders, trail, drawn)?;
    push_returned(text, world, window, senders, drawn, later)?;
    push_sent(text, world, window, senders, drawn, later)
}

// That of the envelope that the step takes out of its line.
fn push_taken(
    text: &mut String,
    world: &World,
    window: &Window,
    senders: &[Member],
    trail: &[Drawn],
    drawn: Drawn,
) -> Result<(), AllocError>
    ensures { OnOk result (Adds text.old text.new
        (taken_text world.now.rehearsal window.now senders.now trail.now drawn (taken drawn.step))) }
{
    match taken(drawn.step) {
        None => Ok(()),
        Some(serial) => push_arrow_at(text, world, window, senders, trail, drawn, serial),
    }
}

// Where it is asked for.
fn push_arrow_at(
    text: &mut String,
    world: &World,
    window: &Window,
    senders: &[Member],
    trail: &[Drawn],
    drawn: Drawn,
    serial: Serial,
) -> Result<(), AllocError>
    ensures { OnOk result (Adds text.old text.new
        (arrow_at world.now.rehearsal window.now senders.now trail.now drawn serial (letter_at world.now.rehearsal serial))) }
{
    match asked(world, window, senders, serial) {
        None => Ok(()),
        Some((sender, letter)) => push_arrow(
            text,
            world,
            window,
            sender,
            origin(trail, serial),
            drawn,
            serial,
            &letter,
        ),
    }
}

// The envelope of the serial, where it is asked for, with the member whose step sent it.
fn asked(
    world: &World,
    window: &Window,
    senders: &[Member],
    serial: Serial,
) -> Option<(Member, Letter)>
    ensures { result ≡ asked window.now senders.now serial (letter_at world.now.rehearsal serial) }
{
    let sender = sender_at(senders, serial);
    match world.letter(serial) {
        Some(letter) if window.has_wire(sender, letter.to, &letter.wire) => Some((sender, letter)),
        _ => None,
    }
}

// From its beginning to the step.
#[tactic(auto, unfolding(crate::specs::Arrows::arrow_text))]
fn push_arrow(
    text: &mut String,
    world: &World,
    window: &Window,
    sender: Member,
    begun: Option<Drawn>,
    drawn: Drawn,
    serial: Serial,
    letter: &Letter,
) -> Result<(), AllocError>
    ensures { OnOk result (Adds text.old text.new
        (arrow_text world.now.rehearsal window.now sender begun drawn serial letter.now)) }
{
    push_opening(text, kind_of(&letter.wire), end_class(drawn))?;
    push_way(text, world, window, sender, begun, letter.to, drawn.place)?;
    push_who(text, world, serial, sender, letter.to)?;
    push_begun(text, window.from, begun)?;
    push_end(text, drawn)
}

// How its line looks.
#[tactic(auto, unfolding(crate::specs::Arrows::opening_text))]
fn push_opening(text: &mut String, kind: &str, more: &str) -> Result<(), AllocError>
    ensures { OnOk result (Adds text.old text.new (opening_text kind.now more.now)) }
{
    write!(text, "<path class='{kind}{more}' d='")
}

// From where it begins to a place of its receiver.
fn push_way(
    text: &mut String,
    world: &World,
    window: &Window,
    sender: Member,
    begun: Option<Drawn>,
    to: Member,
    place: u16,
) -> Result<(), AllocError>
    ensures { OnOk result (Adds text.old text.new (way_text world.now.rehearsal window.now sender begun to place)) }
{
    push_route(
        text,
        grid_of(world, window),
        begun_at(begun),
        begun_by(begun, sender),
        to,
        place,
    )
}

// Who sent it, and to whom.
#[tactic(auto, unfolding(crate::specs::Arrows::who_text))]
fn push_who(
    text: &mut String,
    world: &World,
    serial: Serial,
    sender: Member,
    to: Member,
) -> Result<(), AllocError>
    ensures { OnOk result (Adds text.old text.new (who_text world.now.rehearsal serial sender to)) }
{
    text.push_str("'><title>")?;
    push_serial(text, world, serial)?;
    write!(text, ", sent by {sender} to {to}")
}

// When.
fn push_begun(text: &mut String, first: u32, begun: Option<Drawn>) -> Result<(), AllocError>
    ensures { OnOk result (Adds text.old text.new (begun_text first begun)) }
{
    match begun {
        None => push_before(text, first),
        Some(drawn) => push_begun_in(text, drawn),
    }
}

#[tactic(auto, unfolding(crate::specs::Arrows::before_text))]
fn push_before(text: &mut String, first: u32) -> Result<(), AllocError>
    ensures { OnOk result (Adds text.old text.new (before_text first)) }
{
    write!(text, " before step {first}")
}

#[tactic(auto, unfolding(crate::specs::Arrows::begun_in))]
fn push_begun_in(text: &mut String, drawn: Drawn) -> Result<(), AllocError>
    ensures { OnOk result (Adds text.old text.new (begun_in drawn)) }
{
    let word = begun_word(drawn.step);
    let number = drawn.number;
    write!(text, "{word} in step {number}")
}

fn begun_word(step: Step) -> &'static str
    ensures { result.now ≡ begun_word step }
{
    match step {
        Step::Repeat(_, _) => ", repeated",
        _ => "",
    }
}

// What became of it.
#[tactic(auto, unfolding(crate::specs::Arrows::end_text))]
fn push_end(text: &mut String, drawn: Drawn) -> Result<(), AllocError>
    ensures { OnOk result (Adds text.old text.new (end_text drawn)) }
{
    let word = end_word(drawn.step);
    let number = drawn.number;
    write!(text, "; {word} in step {number}</title></path>\n")
}

fn end_word(step: Step) -> &'static str
    ensures { result.now ≡ end_word step }
{
    match step {
        Step::Lose(_, _) => "lost",
        _ => "received",
    }
}

// How an arrow that ends at the step looks besides.
fn end_class(drawn: Drawn) -> &'static str
    ensures { result.now ≡ end_class drawn.step drawn.is_quiet }
{
    match drawn.step {
        Step::Lose(_, _) => " lost",
        _ if drawn.is_quiet => " late",
        _ => "",
    }
}

// Where it begins, where that is in the window.
fn begun_at(begun: Option<Drawn>) -> Option<u16>
    ensures { result ≡ begun_at begun }
{
    match begun {
        None => None,
        Some(drawn) => Some(drawn.place),
    }
}

// At which member.
fn begun_by(begun: Option<Drawn>, sender: Member) -> Member
    ensures { result ≡ begun_by begun sender }
{
    match begun {
        None => sender,
        Some(drawn) => drawn.step.member(),
    }
}

// The member whose step sent the envelope, 0 where it was not sent.
fn sender_at(senders: &[Member], serial: Serial) -> Member
    ensures { result ≡ sender_at senders.now serial }
{
    match serial.checked_sub(1) {
        None => 0,
        Some(place) => senders.get(place as usize).copied().unwrap_or(0),
    }
}

// The rows of the window's columns, with the members of the group.
pub(crate) fn grid_of(world: &World, window: &Window) -> Grid
    ensures { result ≡ grid_of world.now.rehearsal window.now }
{
    Grid {
        n: world.group().n(),
        columns: window.columns,
    }
}

// The kind of what an envelope carries.
pub(crate) fn kind_of(wire: &Wire) -> &'static str
    ensures { result.now ≡ kind_of wire.now }
{
    match *wire {
        Wire::Data(_) => "data",
        Wire::Est { .. } => "est",
        Wire::Prop { .. } => "prop",
        Wire::Ack { .. } => "ack",
        Wire::Nack { .. } => "nack",
        Wire::Dec { .. } => "dec",
    }
}

// The beginning of the one that the step puts back into its line, where none of the later steps takes it out.
fn push_returned(
    text: &mut String,
    world: &World,
    window: &Window,
    senders: &[Member],
    drawn: Drawn,
    later: &[Step],
) -> Result<(), AllocError>
    requires { drawn.number + length later.now < 2 ^ 63 }
    ensures { OnOk result (Adds text.old text.new
        (returned_text world.now.rehearsal window.now senders.now drawn later.now (returned drawn.step))) }
{
    match returned(drawn.step) {
        None => Ok(()),
        Some(serial) => push_stub_at(text, world, window, senders, drawn, later, serial),
    }
}

// The beginnings of those that the step sends.
fn push_sent(
    text: &mut String,
    world: &World,
    window: &Window,
    senders: &[Member],
    drawn: Drawn,
    later: &[Step],
) -> Result<(), AllocError>
    requires { drawn.number + length later.now < 2 ^ 63 }
    ensures { OnOk result (Adds text.old text.new
        (first_stubs world.now.rehearsal window.now senders.now drawn later.now (drawn.sent - drawn.before))) }
{
    let count = drawn.sent.saturating_sub(drawn.before);
    for k in 0..count {
        push_stub_at(
            text,
            world,
            window,
            senders,
            drawn,
            later,
            drawn.before + k + 1,
        )?;
    }
    Ok(())
}

// Where it is asked for, and none of the later steps takes it out of its line.
fn push_stub_at(
    text: &mut String,
    world: &World,
    window: &Window,
    senders: &[Member],
    drawn: Drawn,
    later: &[Step],
    serial: Serial,
) -> Result<(), AllocError>
    requires { drawn.number + length later.now < 2 ^ 63 }
    ensures { OnOk result (Adds text.old text.new
        (stub_at world.now.rehearsal window.now senders.now drawn later.now serial (letter_at world.now.rehearsal serial))) }
{
    match asked(world, window, senders, serial) {
        Some((sender, letter)) if !is_taken(later, serial) => {
            let last = drawn.number + later.len();
            push_stub_arrow(text, world, window, sender, drawn, last, serial, &letter)
        }
        _ => Ok(()),
    }
}

#[tactic(auto, unfolding(crate::specs::Arrows::stub_arrow))]
fn push_stub_arrow(
    text: &mut String,
    world: &World,
    window: &Window,
    sender: Member,
    drawn: Drawn,
    last: usize,
    serial: Serial,
    letter: &Letter,
) -> Result<(), AllocError>
    ensures { OnOk result (Adds text.old text.new
        (stub_arrow world.now.rehearsal window.now sender drawn last serial letter.now)) }
{
    push_opening(text, kind_of(&letter.wire), " stub")?;
    push_short(text, world, window, drawn, letter.to)?;
    push_who(text, world, serial, sender, letter.to)?;
    push_begun_in(text, drawn)?;
    push_last(text, last)
}

// How far it was not received.
#[tactic(auto, unfolding(crate::specs::Arrows::last_text))]
fn push_last(text: &mut String, last: usize) -> Result<(), AllocError>
    ensures { OnOk result (Adds text.old text.new (last_text last)) }
{
    write!(text, "; not received up to step {last}</title></path>\n")
}

// The beginning of a line to the member.
fn push_short(
    text: &mut String,
    world: &World,
    window: &Window,
    drawn: Drawn,
    to: Member,
) -> Result<(), AllocError>
    ensures { OnOk result (Adds text.old text.new (short_text world.now.rehearsal window.now drawn to)) }
{
    let from = drawn.step.member();
    push_stub(
        text,
        from,
        to,
        grid_of(world, window).spot(drawn.place, from),
    )
}
