//! Why sessions are not kept.

ghost use Rattle.ct_judge.specs.Keeping.{keep_status};

use ct_streams::{Fault, Status};
use std::alloc::AllocError;
use thiserror::Error;

/// Why the record of a session is not kept. Its text is the line for standard error.
#[derive(Clone, Copy, Debug, Drop, PartialEq, Eq, Error)]
pub enum KeepFault {
    /// The number of members was not given, so that there is no record.
    #[error("no members")]
    NoMembers,
    /// The writer failed.
    #[error("write failed")]
    Write,
    /// Memory was refused.
    #[error("out of memory")]
    Memory,
}

impl Fault for KeepFault {
    ghost ends_with = { λ fault. keep_status fault };

    // 1 where there is no record, 4 for a stream, 5 for memory.
    fn status(&self) -> u8 {
        match self {
            KeepFault::NoMembers => Status::Refused.code(),
            KeepFault::Write => Status::Stream.code(),
            KeepFault::Memory => Status::Memory.code(),
        }
    }
}

impl From<AllocError> for KeepFault {
    ghost use Rattle.std.specs.Prelude.{◌≡◌};
    ghost use Rattle.ct_judge.specs.declared.keep_fault.KeepFault.TheVariants.{Memory};

    ghost from_gives = { λ _ fault. fault ≡ Memory };

    fn from(_error: AllocError) -> KeepFault {
        KeepFault::Memory
    }
}
