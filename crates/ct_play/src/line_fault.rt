//! Why lines are refused.

ghost use Rattle.std.specs.Prelude.{◌≡◌};
ghost use Rattle.ct_play.specs.Faults.{is_short};

use ct_grammar::Pick;
use ct_model::Step;
use ct_names::{Member, MemberSet, Refusal, Serial};
use std::alloc::AllocError;

/// Why a line of a schedule is refused.
#[derive(Clone, Copy, Debug, Drop, PartialEq, Eq)]
pub enum LineFault {
    /// It is no line of the grammar, or a number of the group is out of its range.
    NotUnderstood,
    /// The number of members is not given yet.
    NoMembers,
    /// The group was made: its numbers stay.
    Settled,
    /// The group has no such member.
    NoSuchMember(Member),
    /// No envelope that is so named waits at the member; of a repetition, none was ever sent to it.
    NotThere(Member, Pick),
    /// Nothing waits at the member that a step of one of these sent.
    NoneFrom(Member, MemberSet),
    /// The member receives nothing from another side of the cut, as the envelope of this serial is.
    Across(Member, Serial),
    /// The step is refused.
    Refused(Step, Refusal),
    /// What is expected does not hold; the first member by which it does not, if it is one.
    NotMet(Option<Member>),
    /// Something moved in each round of as many as there may be.
    Restless,
    /// What the member did is not what is stated.
    NotSo(Member),
    /// Memory was refused.
    OutOfMemory,
    /// A cell of the board refused a batch.
    Board,
}

impl LineFault {
    /// Whether it tells of memory or of the board, not of the line.
    pub fn is_short(&self) -> bool
        ensures { result ≡ is_short self.now }
    {
        match self {
            LineFault::NotUnderstood => false,
            LineFault::NoMembers => false,
            LineFault::Settled => false,
            LineFault::NoSuchMember(_) => false,
            LineFault::NotThere(..) => false,
            LineFault::NoneFrom(..) => false,
            LineFault::Across(..) => false,
            LineFault::Refused(..) => false,
            LineFault::NotMet(_) => false,
            LineFault::Restless => false,
            LineFault::NotSo(_) => false,
            LineFault::OutOfMemory => true,
            LineFault::Board => true,
        }
    }
}

impl From<AllocError> for LineFault {
    ghost use Rattle.std.specs.Prelude.{◌≡◌};
    ghost use Rattle.ct_play.specs.declared.line_fault.LineFault.TheVariants.{OutOfMemory};

    ghost from_gives = { λ _ fault. fault ≡ OutOfMemory };

    fn from(_error: AllocError) -> LineFault {
        LineFault::OutOfMemory
    }
}
