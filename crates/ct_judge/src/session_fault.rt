//! Why sessions end early.

ghost use Rattle.ct_judge.specs.SessionFaults.{session_status};

use ct_streams::{Fault, Status};
use std::alloc::AllocError;
use thiserror::Error;

/// Why a session ends before its input does. Its text is the line for standard error.
#[derive(Clone, Copy, Debug, Drop, PartialEq, Eq, Error)]
pub enum SessionFault {
    /// The reader failed.
    #[error("read failed")]
    Read,
    /// The writer failed.
    #[error("write failed")]
    Write,
    /// Memory was refused.
    #[error("out of memory")]
    Memory,
    /// A cell of the board refused a batch.
    #[error("board refused")]
    Board,
}

impl Fault for SessionFault {
    ghost ends_with = { λ fault. session_status fault };

    // 4 for a stream, 5 for memory and the board.
    fn status(&self) -> u8 {
        match self {
            SessionFault::Read | SessionFault::Write => Status::Stream.code(),
            SessionFault::Memory | SessionFault::Board => Status::Memory.code(),
        }
    }
}

impl From<AllocError> for SessionFault {
    ghost use Rattle.std.specs.Prelude.{◌≡◌};
    ghost use Rattle.ct_judge.specs.declared.session_fault.SessionFault.TheVariants.{Memory};

    ghost from_gives = { λ _ fault. fault ≡ Memory };

    fn from(_error: AllocError) -> SessionFault {
        SessionFault::Memory
    }
}
