//! What members' detectors answer.

ghost use Rattle.std.specs.Prelude.{◌≡◌, ◌-◌, ◌<◌, slice_get, Some};
ghost use Rattle.ct_walk.specs.Walking.{after_answer, answer};

use ct_detect::{Ask, Detector, Seeded};
use ct_names::Member;

// The answer to what a turn of the member asks; no where it asks nothing.
pub(crate) fn answer(asked: Option<Ask>, detectors: &mut Vec<Seeded>, member: Member) -> bool
    requires { 0 < member }
    ensures answer { result ≡ answer asked (slice_get detectors.old.items (member - 1)) }
    ensures after { detectors.new.items ≡ after_answer detectors.old.items member asked (slice_get detectors.old.items (member - 1)) }
{
    match asked {
        None => false,
        Some(ask) => answer_to(ask, detectors, member),
    }
}

// The answer of the member's detector.
fn answer_to(ask: Ask, detectors: &mut Vec<Seeded>, member: Member) -> bool
    requires { 0 < member }
    ensures answer { result ≡ answer (Some ask) (slice_get detectors.old.items (member - 1)) }
    ensures after { detectors.new.items ≡ after_answer detectors.old.items member (Some ask) (slice_get detectors.old.items (member - 1)) }
{
    let place = usize::from(member) - 1;
    if place >= detectors.len() {
        return false;
    }
    detectors[place].suspects(ask)
}
