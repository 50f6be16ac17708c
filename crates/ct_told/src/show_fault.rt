//! Why nothing is shown of a record.

ghost use Rattle.std.specs.Prelude.{◌≡◌, Some};
ghost use Rattle.ct_records.specs.ProgramFault.{of_input_fault};
ghost use Rattle.ct_records.specs.declared.program_fault.ProgramFault.TheVariants.{Memory};
ghost use Rattle.ct_told.specs.Faults.{fault_text, status_of, IsOfReplayFault};
ghost use Rattle.ct_told.specs.declared.show_fault.ShowFault.TheVariants.{Program};

use crate::no_record::NoRecord;
use ct_names::Member;
use ct_records::{ProgramFault, ReadFault};
use ct_streams::{Fault, InputFault, Status};
use ct_world::ReplayFault;
use std::alloc::AllocError;
use std::fmt;

/// Why a record is not shown or drawn, or not to its end. Its text is the line for standard error.
#[derive(Debug, Drop)]
pub enum ShowFault {
    /// The steps of a member are asked for that the record's group doesn't have.
    NoMember {
        /// The member.
        member: Member,
        /// The number of members.
        members: u8,
    },
    /// This many steps of the record are to be drawn, more than a diagram has.
    TooManySteps {
        steps: usize,
    },
    /// The input is no record.
    Unread(NoRecord),
    /// A step is refused, a stream failed, or memory was refused.
    Program(ProgramFault),
}

impl Fault for ShowFault {
    ghost ends_with = { λ fault. status_of fault };

    // 3 for a member that isn't there or for too many steps, 2 for the input, else the program's.
    fn status(&self) -> u8 {
        match self {
            ShowFault::NoMember { .. } | ShowFault::TooManySteps { .. } => Status::Words.code(),
            ShowFault::Unread(_) => Status::NoRecord.code(),
            ShowFault::Program(fault) => fault.status(),
        }
    }
}

impl fmt::Display for ShowFault {
    ghost output = { λ fault. Some (fault_text fault) };

    fn fmt<W: fmt::Write>(&self, f: &mut fmt::Formatter<W>) -> fmt::Result {
        match self {
            ShowFault::NoMember { member, members } => {
                write!(
                    f,
                    "--member {member}: the record has members 1 to {members}"
                )
            }
            ShowFault::TooManySteps { steps } => {
                write!(
                    f,
                    "{steps} steps are too many to draw: name at most 400 of them by --from and --to"
                )
            }
            ShowFault::Unread(told) => write!(f, "{told}"),
            ShowFault::Program(fault) => match *fault {
                ProgramFault::Replay { at, refusal } => write!(f, "step {at}: {refusal}"),
                ProgramFault::Read(fault) => match fault {
                    ReadFault::TooLong => f.write_str("record: too long"),
                    ReadFault::NotJson => f.write_str("record: not JSON"),
                    ReadFault::Shape { at } => write!(f, "record: shape at {at}"),
                    ReadFault::Version => f.write_str("record: version"),
                    ReadFault::OutOfMemory => f.write_str("out of memory"),
                },
                ProgramFault::Reader => f.write_str("read failed"),
                ProgramFault::Write => f.write_str("write failed"),
                ProgramFault::Memory => f.write_str("out of memory"),
                ProgramFault::Start => f.write_str("no thread"),
                ProgramFault::Exchanged => f.write_str("world exchanged"),
            },
        }
    }
}

impl From<ProgramFault> for ShowFault {
    ghost from_gives = { λ fault e. e ≡ Program fault };

    fn from(fault: ProgramFault) -> ShowFault {
        ShowFault::Program(fault)
    }
}

impl From<InputFault> for ShowFault {
    ghost from_gives = { λ fault e. e ≡ Program (of_input_fault fault) };

    fn from(fault: InputFault) -> ShowFault {
        ShowFault::Program(ProgramFault::from(fault))
    }
}

impl From<ReplayFault> for ShowFault {
    ghost from_gives = { λ replay e. IsOfReplayFault replay e };

    fn from(replay: ReplayFault) -> ShowFault {
        ShowFault::Program(ProgramFault::from(replay))
    }
}

impl From<AllocError> for ShowFault {
    ghost from_gives = { λ _ e. e ≡ Program Memory };

    fn from(_error: AllocError) -> ShowFault {
        ShowFault::Program(ProgramFault::Memory)
    }
}
