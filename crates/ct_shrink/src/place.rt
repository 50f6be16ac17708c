//! Where lines stand in a run.

use crate::line::Line;
use ct_grammar::{Act, Carried, Pick};
use ct_names::{Instance, MAX_MEMBERS, Round};

// The instance and the round that a line is of; round 0 where it is of no round.
#[derive(Clone, Copy, Debug, PartialEq, Eq)]
pub(crate) struct Place {
    pub(crate) instance: Instance,
    pub(crate) round: Round,
}

impl Place {
    // That of what an envelope carries; None for a message.
    pub(crate) fn of(carried: Carried) -> Option<Place> {
        match carried {
            Carried::Data(..) => None,
            Carried::Est(instance, round) => Some(Place { instance, round }),
            Carried::Prop(instance, round) => Some(Place { instance, round }),
            Carried::Ack(instance, round) => Some(Place { instance, round }),
            Carried::Nack(instance, round) => Some(Place { instance, round }),
            Carried::Dec(instance, round) => Some(Place { instance, round }),
        }
    }

    // The same kind of envelope, of this place.
    pub(crate) fn named(self, carried: Carried) -> Carried {
        match carried {
            Carried::Data(..) => carried,
            Carried::Est(..) => Carried::Est(self.instance, self.round),
            Carried::Prop(..) => Carried::Prop(self.instance, self.round),
            Carried::Ack(..) => Carried::Ack(self.instance, self.round),
            Carried::Nack(..) => Carried::Nack(self.instance, self.round),
            Carried::Dec(..) => Carried::Dec(self.instance, self.round),
        }
    }

    // Where it goes as an instance is taken out; None where it is of that one.
    pub(crate) fn without_instance(self, instance: Instance) -> Option<Place> {
        if self.instance < instance {
            return Some(self);
        }
        if self.instance == instance {
            return None;
        }
        Some(Place {
            instance: self.instance - 1,
            round: self.round,
        })
    }

    // Where it goes as so many rounds are taken out, from this one on; None where it is of one of them.
    pub(crate) fn without_rounds(self, first: Round, count: Round) -> Option<Place> {
        if self.round < first {
            return Some(self);
        }
        if self.round - first < count {
            return None;
        }
        Some(Place {
            instance: self.instance,
            round: self.round - count,
        })
    }
}

// How many members a group has at most.
const MEMBERS: usize = MAX_MEMBERS as usize;

// Where each member stands, member 1 first.
#[derive(Drop)]
pub(crate) struct Standings {
    places: [Place; MEMBERS],
}

impl Standings {
    // Before the first line.
    pub(crate) fn new() -> Standings {
        Standings {
            places: [Place {
                instance: 0,
                round: 0,
            }; MEMBERS],
        }
    }

    // The place of the next line of the run.
    pub(crate) fn next(&mut self, line: &Line) -> Option<Place> {
        let standing = self
            .places
            .get_mut(usize::from(line.member).checked_sub(1)?)?;
        match line.act {
            Act::Receive(pick) | Act::Postpone(pick) | Act::Lose(pick) | Act::Repeat(pick) => {
                match pick {
                    Pick::Serial(_) => None,
                    Pick::First(carried, _) => Place::of(carried),
                }
            }
            Act::Submit(_) | Act::Crash | Act::LoseFrom(_) => None,
            Act::Begin | Act::Follow => {
                standing.instance = standing.instance.saturating_add(1);
                standing.round = 0;
                Some(*standing)
            }
            Act::Enter => {
                standing.round = standing.round.saturating_add(1);
                Some(*standing)
            }
            Act::Choose(_) | Act::Adopt | Act::Suspect | Act::Conclude => Some(*standing),
            Act::Deliver => Some(Place {
                instance: standing.instance,
                round: 0,
            }),
        }
    }
}
