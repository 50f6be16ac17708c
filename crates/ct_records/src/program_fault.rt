//! Why the program stops.

ghost use Rattle.std.specs.Prelude.{◌≡◌};
ghost use Rattle.ct_records.specs.ProgramFault.{status_of, of_input_fault, of_read_fault, IsOfReplayFault};
ghost use Rattle.ct_records.specs.declared.program_fault.ProgramFault.TheVariants.{Memory};

use crate::read_fault::ReadFault;
use ct_names::Refusal;
use ct_streams::{InputFault, Status};
use ct_world::ReplayFault;
use std::alloc::{AllocError, AllocFailed};
use thiserror::Error;

/// Why the program stops. Its text is the line for standard error.
#[derive(Clone, Copy, Debug, Drop, PartialEq, Eq, Error)]
pub enum ProgramFault {
    /// Step `at` of the record, counted from 1, is refused.
    #[error("step {at}: {refusal}")]
    Replay { at: usize, refusal: Refusal },
    /// The input is no record.
    #[error(transparent)]
    Read(ReadFault),
    /// The reader failed.
    #[error("read failed")]
    Reader,
    /// The writer failed.
    #[error("write failed")]
    Write,
    /// Memory was refused.
    #[error("out of memory")]
    Memory,
    /// A thread of a free run could not be started.
    #[error("no thread")]
    Start,
    /// A free run ended in a world of other members or cells, or of another bound, than it began with.
    #[error("world exchanged")]
    Exchanged,
}

impl ProgramFault {
    /// The status that the program ends with: 1 for a refused step, 2 for a record, 4 for a stream, 5 for
    /// memory, threads and an exchanged world.
    pub fn status(&self) -> u8
        ensures { result ≡ status_of self.now }
    {
        let status = match self {
            ProgramFault::Replay { .. } => Status::Refused,
            ProgramFault::Read(_) => Status::NoRecord,
            ProgramFault::Reader | ProgramFault::Write => Status::Stream,
            ProgramFault::Memory | ProgramFault::Start | ProgramFault::Exchanged => Status::Memory,
        };
        status.code()
    }
}

impl From<InputFault> for ProgramFault {
    ghost from_gives = { λ fault e. e ≡ of_input_fault fault };

    fn from(fault: InputFault) -> ProgramFault {
        match fault {
            InputFault::Reader => ProgramFault::Reader,
            InputFault::Memory => ProgramFault::Memory,
        }
    }
}

impl From<ReadFault> for ProgramFault {
    ghost from_gives = { λ fault e. e ≡ of_read_fault fault };

    fn from(fault: ReadFault) -> ProgramFault {
        match fault {
            ReadFault::OutOfMemory => ProgramFault::Memory,
            fault => ProgramFault::Read(fault),
        }
    }
}

impl From<ReplayFault> for ProgramFault {
    ghost from_gives = { λ fault e. IsOfReplayFault fault e };

    fn from(fault: ReplayFault) -> ProgramFault {
        match fault.refusal {
            Refusal::OutOfMemory => ProgramFault::Memory,
            refusal => ProgramFault::Replay {
                at: fault.at,
                refusal,
            },
        }
    }
}

impl From<AllocError> for ProgramFault {
    ghost from_gives = { λ _ e. e ≡ Memory };

    fn from(_error: AllocError) -> ProgramFault {
        ProgramFault::Memory
    }
}

impl<T: Drop> From<AllocFailed<T>> for ProgramFault {
    ghost from_gives = { λ _ e. e ≡ Memory };

    fn from(_error: AllocFailed<T>) -> ProgramFault {
        ProgramFault::Memory
    }
}
