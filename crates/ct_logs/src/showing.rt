//! From a run to what it shows.

use crate::seen::Seen;
use crate::setup::setup_of;
use ct_model::Step;
use ct_world::{Replay, ReplayFault, Setup, World};
use std::alloc::{AllocError, Global};

// What the steps show, which are all allowed.
fn seen(alloc: Global, setup: Setup, steps: &[Step]) -> Result<Seen, ReplayFault> {
    let mut replay = Replay::new(alloc, setup, steps)?;
    let seen = seen_in(&mut replay);
    drop(replay);
    seen
}

// What the steps show that are left.
fn seen_in(replay: &mut Replay<'_>) -> Result<Seen, ReplayFault> {
    let mut seen = Seen::new();
    while !replay.is_over() {
        let done = replay.step()?;
        seen = seen.with(replay.world(), done.step);
    }
    Ok(seen)
}

// The line that tells of it, and of steps of it that are presumed.
pub(crate) fn accepted(alloc: Global, world: &World, presumed: &str) -> Result<String, AllocError> {
    let members = world.group().n();
    let seen = match seen(alloc, setup_of(world), world.record()) {
        Ok(seen) => seen,
        Err(_) => return Err(AllocError),
    };
    let mut text = String::new(alloc);
    push_verdict(&mut text, presumed)?;
    push_seen(&mut text, members, seen)?;
    Ok(text)
}

fn push_verdict(text: &mut String, presumed: &str) -> Result<(), AllocError> {
    if presumed.is_empty() {
        text.push_str("accepted: ")
    } else {
        write!(text, "presumed: {presumed}; ")
    }
}

fn push_seen(text: &mut String, members: u8, seen: Seen) -> Result<(), AllocError> {
    let Seen {
        lines,
        instances,
        round,
        suspicions,
        choices,
        repetitions,
    } = seen;
    push_count(text, usize::from(members), "member")?;
    text.push_str(", ")?;
    push_count(text, lines, "line")?;
    write!(
        text,
        "; instances {instances}, largest round {round}, suspicions {suspicions}"
    )?;
    write!(
        text,
        ", choices between different ts {choices}, repetitions {repetitions}"
    )
}

// How many there are of what the word names.
fn push_count(text: &mut String, count: usize, word: &str) -> Result<(), AllocError> {
    let ending = if count == 1 { "" } else { "s" };
    write!(text, "{count} {word}{ending}")
}
