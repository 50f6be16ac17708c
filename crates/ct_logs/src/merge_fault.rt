//! Why no merged run is written.

ghost use Rattle.ct_logs.specs.Faults.{status_of};

use ct_play::LineFault;
use ct_streams::{Fault, FileFault, Status};
use std::alloc::AllocError;
use thiserror::Error;

// The status where a log would have to go on. No other command ends with it.
const INCOMPLETE: u8 = 6;

// The status where a limit is in the way. No other command ends with it.
const LIMIT: u8 = 8;

/// Why no merged run is written. Its text is the line for standard error.
#[derive(Debug, Drop, Error)]
pub enum MergeFault {
    /// No order of the logs is a run; the line that is told of stands in none.
    #[error("refused: {0}")]
    Refused(String),
    /// A log would have to go on.
    #[error("incomplete: {0}")]
    Incomplete(String),
    /// A limit is in the way, which accuses nobody.
    #[error("limit: {0}")]
    Limit(String),
    /// The files are no logs of a group.
    #[error("{0}")]
    NoLogs(String),
    /// Standard input is named twice.
    #[error("-: standard input has one log alone")]
    Twice,
    /// A file is not read.
    #[error("{text}")]
    File { fault: FileFault, text: String },
    /// A file that is followed is another now, or shorter than what was read of it.
    #[error("{0}")]
    Changed(String),
    /// The writer failed.
    #[error("write failed")]
    Write,
    /// Memory was refused.
    #[error("out of memory")]
    Memory,
    /// A cell of the board refused a batch.
    #[error("board refused")]
    Board,
}

impl Fault for MergeFault {
    ghost ends_with = { λ fault. status_of fault };

    // 1 for logs that are refused, 2 for files that are no logs, 3 for words, 4 for a stream, 5 for memory and the board, 6 for
    // logs that are incomplete, 8 for a limit.
    fn status(&self) -> u8 {
        match self {
            MergeFault::Refused(_) => Status::Refused.code(),
            MergeFault::Incomplete(_) => INCOMPLETE,
            MergeFault::Limit(_) => LIMIT,
            MergeFault::NoLogs(_) => Status::NoRecord.code(),
            MergeFault::Twice => Status::Words.code(),
            MergeFault::File { .. } | MergeFault::Changed(_) | MergeFault::Write => {
                Status::Stream.code()
            }
            MergeFault::Memory | MergeFault::Board => Status::Memory.code(),
        }
    }
}

impl From<AllocError> for MergeFault {
    ghost use Rattle.std.specs.Prelude.{◌≡◌};
    ghost use Rattle.ct_logs.specs.declared.merge_fault.MergeFault.TheVariants.{Memory};

    ghost from_gives = { λ _ fault. fault ≡ Memory };

    fn from(_error: AllocError) -> MergeFault {
        MergeFault::Memory
    }
}

// Memory or the board was refused.
impl From<LineFault> for MergeFault {
    ghost use Rattle.ct_logs.specs.Silence.{IsSilent};

    ghost from_gives = { λ _ fault. IsSilent fault };

    fn from(fault: LineFault) -> MergeFault {
        match fault {
            LineFault::Board => MergeFault::Board,
            _ => MergeFault::Memory,
        }
    }
}
