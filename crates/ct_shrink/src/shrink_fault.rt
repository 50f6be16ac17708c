//! Why no smaller run is made.

ghost use Rattle.std.specs.Prelude.{◌≡◌, Some};
ghost use Rattle.ct_told.specs.declared.show_fault.ShowFault.TheVariants.{Program};
ghost use Rattle.ct_shrink.specs.Faults.{fault_text, of_line_fault, status_of};
ghost use Rattle.ct_shrink.specs.declared.shrink_fault.ShrinkFault.TheVariants.{Show};

use ct_names::Member;
use ct_play::LineFault;
use ct_records::ProgramFault;
use ct_streams::{Fault, Status};
use ct_told::ShowFault;
use std::fmt;

/// Why no smaller run is made, or written. Its text is the line for standard error.
#[derive(Debug, Drop)]
pub enum ShrinkFault {
    /// The goal names a member that the record's group doesn't have.
    NoMember {
        /// The member.
        member: Member,
        /// The number of members.
        members: u8,
    },
    /// The run never shows the goal.
    NotShown,
    /// A cell of the board refused a batch.
    Board,
    /// The input is no record, a step of it is refused, a stream failed, or memory was refused.
    Show(ShowFault),
}

impl Fault for ShrinkFault {
    ghost ends_with = { λ fault. status_of fault };

    // 3 for a member that isn't there, 1 where the goal is not shown, 5 for the board, else that of what is shown of a record.
    fn status(&self) -> u8 {
        match self {
            ShrinkFault::NoMember { .. } => Status::Words.code(),
            ShrinkFault::NotShown => Status::Refused.code(),
            ShrinkFault::Board => Status::Memory.code(),
            ShrinkFault::Show(fault) => fault.status(),
        }
    }
}

impl fmt::Display for ShrinkFault {
    ghost output = { λ fault. Some (fault_text fault) };

    fn fmt<W: fmt::Write>(&self, f: &mut fmt::Formatter<W>) -> fmt::Result {
        match self {
            ShrinkFault::NoMember { member, members } => {
                write!(f, "no member {member} of {members}")
            }
            ShrinkFault::NotShown => f.write_str("the goal is not shown"),
            ShrinkFault::Board => f.write_str("board refused"),
            ShrinkFault::Show(fault) => write!(f, "{fault}"),
        }
    }
}

impl From<LineFault> for ShrinkFault {
    ghost from_gives = { λ line fault. fault ≡ of_line_fault line };

    fn from(line: LineFault) -> ShrinkFault {
        match line {
            LineFault::Board => ShrinkFault::Board,
            _ => ShrinkFault::Show(ShowFault::Program(ProgramFault::Memory)),
        }
    }
}

impl From<ShowFault> for ShrinkFault {
    ghost from_gives = { λ show fault. fault ≡ Show show };

    fn from(show: ShowFault) -> ShrinkFault {
        ShrinkFault::Show(show)
    }
}

impl From<ProgramFault> for ShrinkFault {
    ghost from_gives = { λ program fault. fault ≡ Show (Program program) };

    fn from(program: ProgramFault) -> ShrinkFault {
        ShrinkFault::Show(ShowFault::Program(program))
    }
}
