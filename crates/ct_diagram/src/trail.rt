//! The steps of the window that were drawn so far, in their order.

ghost use Rattle.std.specs.Prelude.{◌≡◌, ◌<◌, ◌≤◌, length};
ghost use Rattle.ct_show.specs.Facts.{takes, returns};
ghost use Rattle.ct_diagram.specs.Trail.{columns, place_after, puts, origin, origin_or, is_taken, taken, returned};

use crate::drawn::Drawn;
use crate::sight::Sight;
use crate::window::MOST_STEPS;
use ct_model::Step;
use ct_names::Serial;

// How many columns they have.
pub(crate) fn columns(trail: &[Drawn]) -> usize
    ensures value { result ≡ columns trail.now }
    ensures few { result ≤ length trail.now }
{
    trail.iter().filter(|drawn| drawn.sight.is_wide()).count()
}

// The place of the step behind them.
pub(crate) fn place_after(trail: &[Drawn], sight: Sight) -> u16
    requires { length trail.now ≤ MOST_STEPS }
    ensures { result ≡ place_after trail.now sight }
{
    let columns = columns(trail);
    if sight.is_wide() {
        (2 * columns + 1) as u16
    } else {
        (2 * columns) as u16
    }
}

// The last one that put the envelope into its line.
pub(crate) fn origin(trail: &[Drawn], serial: Serial) -> Option<Drawn>
    ensures { result ≡ origin trail.now serial }
{
    let mut last = None;
    for drawn in trail {
        last = origin_or(serial, last, *drawn);
    }
    last
}

fn origin_or(serial: Serial, before: Option<Drawn>, drawn: Drawn) -> Option<Drawn>
    ensures { result ≡ origin_or serial before drawn }
{
    if puts(drawn, serial) {
        Some(drawn)
    } else {
        before
    }
}

// Whether the step puts the envelope into its line: it sends or repeats it.
fn puts(drawn: Drawn, serial: Serial) -> bool
    ensures { result ≡ puts serial drawn }
{
    returns(drawn.step, serial) || (drawn.before < serial && serial <= drawn.sent)
}

fn returns(step: Step, serial: Serial) -> bool
    ensures { result ≡ returns step serial }
{
    match step {
        Step::Repeat(_, other) => other == serial,
        _ => false,
    }
}

// Whether one of the steps takes the envelope out of its line.
pub(crate) fn is_taken(later: &[Step], serial: Serial) -> bool
    ensures { result ≡ is_taken later.now serial }
{
    later.iter().any(|step| takes(*step, serial))
}

fn takes(step: Step, serial: Serial) -> bool
    ensures { result ≡ takes step serial }
{
    match step {
        Step::Receive(_, other) | Step::Lose(_, other) => other == serial,
        _ => false,
    }
}

// The envelope that the step takes out of its line.
pub(crate) fn taken(step: Step) -> Option<Serial>
    ensures { result ≡ taken step }
{
    match step {
        Step::Receive(_, serial) | Step::Lose(_, serial) => Some(serial),
        _ => None,
    }
}

// The envelope that it puts back there.
pub(crate) fn returned(step: Step) -> Option<Serial>
    ensures { result ≡ returned step }
{
    match step {
        Step::Repeat(_, serial) => Some(serial),
        _ => None,
    }
}
