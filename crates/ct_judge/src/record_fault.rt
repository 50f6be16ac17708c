//! Why no record is written.

ghost use Rattle.ct_judge.specs.Recording.{status_of};

use ct_play::LineFault;
use ct_streams::{Fault, Status};
use std::alloc::AllocError;
use thiserror::Error;

/// Why no record of a schedule is written. Its text is the line for standard error.
#[derive(Debug, Drop, Error)]
pub enum RecordFault {
    /// Line `at`, counted from 1, is refused; and the text of its fault.
    #[error("line {at}: {text}")]
    Line {
        at: usize,
        fault: LineFault,
        text: String,
    },
    /// The input has more than 67,108,864 bytes.
    #[error("too long")]
    TooLong,
    /// The reader failed.
    #[error("read failed")]
    Read,
    /// The writer failed.
    #[error("write failed")]
    Write,
    /// Memory was refused.
    #[error("out of memory")]
    Memory,
    /// A cell of the board refused a batch.
    #[error("board refused")]
    Board,
}

impl Fault for RecordFault {
    ghost ends_with = { λ fault. status_of fault };

    // 1 for a line, 2 for an input that is too long, 4 for a stream, 5 for memory and the board.
    fn status(&self) -> u8 {
        match self {
            RecordFault::Line { .. } => Status::Refused.code(),
            RecordFault::TooLong => Status::NoRecord.code(),
            RecordFault::Read | RecordFault::Write => Status::Stream.code(),
            RecordFault::Memory | RecordFault::Board => Status::Memory.code(),
        }
    }
}

impl From<AllocError> for RecordFault {
    ghost use Rattle.std.specs.Prelude.{◌≡◌};
    ghost use Rattle.ct_judge.specs.declared.record_fault.RecordFault.TheVariants.{Memory};

    ghost from_gives = { λ _ fault. fault ≡ Memory };

    fn from(_error: AllocError) -> RecordFault {
        RecordFault::Memory
    }
}
