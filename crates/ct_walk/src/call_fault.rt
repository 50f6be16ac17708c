//! Why words ask for nothing.

ghost use Rattle.std.specs.Prelude.{◌≡◌, Some};
ghost use Rattle.ct_walk.specs.Line.{call_fault_text, call_status_of};

use ct_streams::{Fault, Status, WordFault};
use std::alloc::AllocError;
use std::fmt;

/// Why the words of a command line ask for nothing. Its text is the line for standard error.
#[derive(Debug, Drop)]
pub enum CallFault<'a> {
    /// Memory was refused.
    Memory,
    /// An option is given what it may not have.
    Word(WordFault<'a>),
    /// What an option is given is no goal, or names a member that the group hasn't; the line tells which.
    NoGoal(String),
}

impl Fault for CallFault<'_> {
    ghost ends_with = { λ fault. call_status_of fault };

    // 3 for the words, 5 for memory.
    fn status(&self) -> u8 {
        match self {
            CallFault::Memory => Status::Memory.code(),
            CallFault::Word(_) | CallFault::NoGoal(_) => Status::Words.code(),
        }
    }
}

impl fmt::Display for CallFault<'_> {
    ghost output = { λ fault. Some (call_fault_text fault) };

    fn fmt<W: fmt::Write>(&self, f: &mut fmt::Formatter<W>) -> fmt::Result {
        match self {
            CallFault::Memory => f.write_str("out of memory"),
            CallFault::Word(fault) => write!(f, "{fault}"),
            CallFault::NoGoal(line) => f.write_str(line),
        }
    }
}

impl<'a> From<AllocError> for CallFault<'a> {
    ghost use Rattle.std.specs.Prelude.{◌≡◌};
    ghost use Rattle.ct_walk.specs.declared.call_fault.CallFault.TheVariants.{Memory};

    ghost from_gives = { λ _ fault. fault ≡ Memory };

    fn from(_error: AllocError) -> CallFault<'a> {
        CallFault::Memory
    }
}

impl<'a> From<WordFault<'a>> for CallFault<'a> {
    ghost use Rattle.std.specs.Prelude.{◌≡◌};
    ghost use Rattle.ct_walk.specs.declared.call_fault.CallFault.TheVariants.{Word};

    ghost from_gives = { λ word fault. fault ≡ Word word };

    fn from(word: WordFault<'a>) -> CallFault<'a> {
        CallFault::Word(word)
    }
}
