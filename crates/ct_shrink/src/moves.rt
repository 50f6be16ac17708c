//! Moves: ways to make a run smaller by many lines at once. They only make lines to be tried.

ghost use Rattle.std.specs.Prelude.{IfSome};
ghost use Rattle.ct_shrink.specs.Naming.{IsByContent, IsContent, NamesContent};

use crate::line::Line;
use crate::place::Place;
use ct_grammar::{Act, Carried, Pick};
use ct_names::{Instance, Member, Round};

// What is taken out of a run.
#[derive(Clone, Copy, Debug, PartialEq, Eq)]
pub(crate) enum Move {
    // An instance; the later ones follow one earlier.
    Instance(Instance),
    // So many rounds of an instance, from this one on; its later ones follow earlier.
    Rounds {
        instance: Instance,
        first: Round,
        count: Round,
    },
    // So many first rounds of each instance. Members are renamed, so that later rounds keep their coordinators.
    FirstRounds(Member),
}

impl Move {
    // What the line of this place becomes in a group of n members; None where it is taken out.
    pub(crate) fn line(self, n: u8, line: Line, place: Option<Place>) -> Option<Line>
        requires { IsByContent line }
        ensures { IfSome result IsByContent }
    {
        if let Some(place) = place {
            self.place(place)?;
        }
        Some(Line {
            member: self.member(n, line.member),
            act: self.act(n, line.act)?,
        })
    }

    // Where what stands at a place goes; None where it is taken out.
    fn place(self, place: Place) -> Option<Place> {
        match self {
            Move::Instance(instance) => place.without_instance(instance),
            Move::Rounds {
                instance,
                first,
                count,
            } => {
                if place.instance == instance {
                    place.without_rounds(first, count)
                } else {
                    Some(place)
                }
            }
            Move::FirstRounds(count) => place.without_rounds(1, Round::from(count)),
        }
    }

    // The new name of a member.
    fn member(self, n: u8, member: Member) -> Member {
        match self {
            Move::FirstRounds(count) if 1 <= member && member <= n => {
                let (n, count, member) = (u32::from(n), u32::from(count), u32::from(member));
                ((member - 1 + n - count % n) % n) as u8 + 1
            }
            _ => member,
        }
    }

    fn act(self, n: u8, act: Act) -> Option<Act>
        requires { NamesContent act }
        ensures { IfSome result NamesContent }
    {
        Some(match act {
            Act::Receive(pick) => Act::Receive(self.pick(n, pick)?),
            Act::Postpone(pick) => Act::Postpone(self.pick(n, pick)?),
            Act::Lose(pick) => Act::Lose(self.pick(n, pick)?),
            Act::Repeat(pick) => Act::Repeat(self.pick(n, pick)?),
            Act::Choose(from) => Act::Choose(self.member(n, from)),
            act => act,
        })
    }

    fn pick(self, n: u8, pick: Pick) -> Option<Pick>
        requires { IsContent pick }
        ensures { IfSome result IsContent }
    {
        match pick {
            Pick::Serial(serial) => Some(Pick::Serial(serial)),
            Pick::First(carried, from) => {
                let from = from.map(|from| self.member(n, from));
                Some(Pick::First(self.carried(n, carried)?, from))
            }
        }
    }

    fn carried(self, n: u8, carried: Carried) -> Option<Carried> {
        if let Carried::Data(origin, number) = carried {
            return Some(Carried::Data(self.member(n, origin), number));
        }
        let Some(place) = Place::of(carried) else {
            return Some(carried);
        };
        Some(self.place(place)?.named(carried))
    }
}
