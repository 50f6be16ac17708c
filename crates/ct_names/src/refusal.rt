//! Why steps are refused.

ghost use Rattle.std.specs.Prelude.{Some};
ghost use Rattle.ct_names.specs.RefusalText.{refusal_text};

use crate::limit::Limit;
use std::fmt;

/// Why a step is refused, in the order of testing; the last two are tested just before `Full`. It is shown by its name, as
/// `NotWaiting` or `Full(Steps)`.
#[derive(Clone, Copy, Debug, PartialEq, Eq)]
pub enum Refusal {
    /// The member is none of the group's.
    NoSuchMember,
    /// The member has crashed.
    Crashed,
    /// The serial is not in the member's waiting line.
    NotWaiting,
    /// An instance is open.
    Busy,
    /// All that was received is delivered.
    Nothing,
    /// No instance is open.
    Idle,
    /// The phase of the round is another than the step's.
    WrongPhase,
    /// The member has the decision of the open instance.
    Decided,
    /// Fewer than a majority were heard, or replied.
    TooFew,
    /// That member was not heard, or another that was heard has a larger timestamp.
    NotLargest,
    /// The round's proposal was not received.
    NoProposal,
    /// The round's proposal was received.
    HasProposal,
    /// The member has no decision for the open instance, or, for Follow, none for the instance after its last one.
    Undecided,
    /// A register of the command is 16 or more.
    BadCommand,
    /// The step would pass the limit.
    Full(Limit),
    /// Memory was refused.
    OutOfMemory,
    /// The board is not the one that the world was given so far: the cell of a new batch is not there or set already,
    /// or a cell that was set has no batch or another.
    Board,
    /// The serial was never sent to the member.
    NotSent,
    /// The serial is in the member's waiting line.
    StillWaiting,
}

impl fmt::Display for Refusal {
    ghost output = { λ refusal. Some (refusal_text refusal) };

    fn fmt<W: fmt::Write>(&self, f: &mut fmt::Formatter<W>) -> fmt::Result {
        match self {
            Refusal::NoSuchMember => f.write_str("NoSuchMember"),
            Refusal::Crashed => f.write_str("Crashed"),
            Refusal::NotWaiting => f.write_str("NotWaiting"),
            Refusal::Busy => f.write_str("Busy"),
            Refusal::Nothing => f.write_str("Nothing"),
            Refusal::Idle => f.write_str("Idle"),
            Refusal::WrongPhase => f.write_str("WrongPhase"),
            Refusal::Decided => f.write_str("Decided"),
            Refusal::TooFew => f.write_str("TooFew"),
            Refusal::NotLargest => f.write_str("NotLargest"),
            Refusal::NoProposal => f.write_str("NoProposal"),
            Refusal::HasProposal => f.write_str("HasProposal"),
            Refusal::Undecided => f.write_str("Undecided"),
            Refusal::BadCommand => f.write_str("BadCommand"),
            Refusal::Full(limit) => write!(f, "Full({limit})"),
            Refusal::OutOfMemory => f.write_str("OutOfMemory"),
            Refusal::Board => f.write_str("Board"),
            Refusal::NotSent => f.write_str("NotSent"),
            Refusal::StillWaiting => f.write_str("StillWaiting"),
        }
    }
}
