//! Why a record is refused.

ghost use Rattle.std.specs.Prelude.{◌≡◌};
ghost use Rattle.ct_records.specs.declared.read_fault.ReadFault.TheVariants.{OutOfMemory};

use std::alloc::{AllocError, AllocFailed};
use thiserror::Error;

/// The first fault of a record, in the order of testing.
#[derive(Clone, Copy, Debug, Drop, PartialEq, Eq, Error)]
pub enum ReadFault {
    /// It has more than 67,108,864 bytes.
    #[error("record: too long")]
    TooLong,
    /// It is no JSON text, or is nested too deep.
    #[error("record: not JSON")]
    NotJson,
    /// Step `at`, counted from 1, is none; at 0 the record as a whole has another shape.
    #[error("record: shape at {at}")]
    Shape { at: usize },
    /// Its version is another than 1, 2 and 3.
    #[error("record: version")]
    Version,
    /// Memory was refused. It may come in place of each fault but `TooLong`.
    #[error("out of memory")]
    OutOfMemory,
}

impl From<AllocError> for ReadFault {
    ghost from_gives = { λ _ fault. fault ≡ OutOfMemory };

    fn from(_error: AllocError) -> ReadFault {
        ReadFault::OutOfMemory
    }
}

impl<T: Drop> From<AllocFailed<T>> for ReadFault {
    ghost from_gives = { λ _ fault. fault ≡ OutOfMemory };

    fn from(_error: AllocFailed<T>) -> ReadFault {
        ReadFault::OutOfMemory
    }
}
