//! What a run shows.

use ct_model::Step;
use ct_names::{Instance, Member, Round};
use ct_text::{instance_of, round_of};
use ct_world::World;

// What the steps of a run show. A run has fewer steps than a number has room for.
#[derive(Clone, Copy, Drop)]
pub(crate) struct Seen {
    // Steps but the network's repetitions: a line of a log each.
    pub lines: usize,
    // The last instance that a member began.
    pub instances: Instance,
    // The largest round that a member entered.
    pub round: Round,
    pub suspicions: usize,
    // Choices where an estimate of another ts was heard too.
    pub choices: usize,
    pub repetitions: usize,
}

impl Seen {
    // Nothing.
    pub(crate) fn new() -> Seen {
        Seen {
            lines: 0,
            instances: 0,
            round: 0,
            suspicions: 0,
            choices: 0,
            repetitions: 0,
        }
    }

    // With a step more, after which the world is this.
    pub(crate) fn with(self, world: &World, step: Step) -> Seen {
        let lines = self.lines.saturating_add(1);
        match step {
            Step::Repeat(..) => Seen {
                repetitions: self.repetitions.saturating_add(1),
                ..self
            },
            Step::Begin(member) | Step::Follow(member) => Seen {
                lines,
                instances: self.instances.max(instance_of(world, member)),
                ..self
            },
            Step::Enter(member) => Seen {
                lines,
                round: self.round.max(round_of(world, member)),
                ..self
            },
            Step::Suspect(_) => Seen {
                lines,
                suspicions: self.suspicions.saturating_add(1),
                ..self
            },
            Step::Choose(member, from) if is_divided(world, member, from) => Seen {
                lines,
                choices: self.choices.saturating_add(1),
                ..self
            },
            _ => Seen { lines, ..self },
        }
    }
}

// The ts of the estimate that the member heard from this one in its round.
fn heard_ts(world: &World, member: Member, from: Member) -> Option<Round> {
    match world.heard_from(member, from) {
        Some((_, ts)) => Some(ts),
        None => None,
    }
}

// Whether the member heard an estimate in its round that has another ts than this one's.
fn is_divided(world: &World, member: Member, from: Member) -> bool {
    let chosen = heard_ts(world, member, from);
    for other in 1..=world.group().n() {
        let ts = heard_ts(world, member, other);
        if ts.is_some() && ts != chosen {
            return true;
        }
    }
    false
}
