//! Why nothing is found.

ghost use Rattle.std.specs.Prelude.{◌≡◌, Some};
ghost use Rattle.ct_find.specs.Texts.{fault_text, none_text, status_of};

use ct_grammar::Text;
use ct_streams::{Fault, Status};
use ct_walk::{Seeds, WalkFault};
use std::fmt;

/// Why nothing is found, or not written. Its text is the line for standard error.
#[derive(Drop)]
pub enum FindFault {
    /// A walk is not made, or what is found is not written.
    Walk(WalkFault),
    /// The walk of none of the seeds shows the goal.
    NotFound(NotFound),
}

/// The seeds that were tried, and the goal in the words that were given.
#[derive(Drop)]
pub struct NotFound {
    /// The seeds.
    pub seeds: Seeds,
    /// The goal.
    pub goal: Text,
}

impl Fault for FindFault {
    ghost ends_with = { λ fault. status_of fault };

    // 1 where nothing is found, 4 for a stream, 5 for memory and the board.
    fn status(&self) -> u8 {
        match self {
            FindFault::Walk(fault) => fault.status(),
            FindFault::NotFound(_) => Status::Refused.code(),
        }
    }
}

impl fmt::Display for NotFound {
    ghost output = { λ none. Some (none_text none) };

    fn fmt<W: fmt::Write>(&self, f: &mut fmt::Formatter<W>) -> fmt::Result {
        let Seeds { first, last } = self.seeds;
        let goal = self.goal.as_str();
        write!(f, "no seed of {first}..{last} shows {goal}")
    }
}

impl fmt::Display for FindFault {
    ghost output = { λ fault. Some (fault_text fault) };

    fn fmt<W: fmt::Write>(&self, f: &mut fmt::Formatter<W>) -> fmt::Result {
        match self {
            FindFault::Walk(fault) => write!(f, "{fault}"),
            FindFault::NotFound(none) => write!(f, "{none}"),
        }
    }
}

impl From<WalkFault> for FindFault {
    ghost use Rattle.std.specs.Prelude.{◌≡◌};
    ghost use Rattle.ct_find.specs.declared.fault.FindFault.TheVariants.{Walk};

    ghost from_gives = { λ fault found. found ≡ Walk fault };

    fn from(fault: WalkFault) -> FindFault {
        FindFault::Walk(fault)
    }
}
