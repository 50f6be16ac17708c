//! Why a walk is not made.

ghost use Rattle.std.specs.Prelude.{◌≡◌, Some};
ghost use Rattle.ct_walk.specs.Faults.{fault_text, status_of, IsShort};

use crate::missed::Missed;
use ct_play::LineFault;
use ct_streams::{Fault, Status};
use std::alloc::AllocError;
use std::fmt;

/// Why a walk is not made, or not written. Its text is the line for standard error.
#[derive(Clone, Copy, Debug, Drop, PartialEq, Eq)]
pub enum WalkFault {
    /// Memory was refused.
    Memory,
    /// A cell of the board refused a batch.
    Board,
    /// The writer failed.
    Write,
    /// The walk doesn't show what it was made until.
    NotFound(Missed),
}

impl WalkFault {
    // The fault of a step for which memory or the board was short.
    pub(crate) fn of(fault: LineFault) -> WalkFault
        ensures { IsShort result }
    {
        match fault {
            LineFault::Board => WalkFault::Board,
            _ => WalkFault::Memory,
        }
    }
}

impl Fault for WalkFault {
    ghost ends_with = { λ fault. status_of fault };

    // 1 where the goal is not shown, 4 for a stream, 5 for memory and the board.
    fn status(&self) -> u8 {
        match self {
            WalkFault::NotFound(_) => Status::Refused.code(),
            WalkFault::Write => Status::Stream.code(),
            WalkFault::Memory | WalkFault::Board => Status::Memory.code(),
        }
    }
}

impl fmt::Display for WalkFault {
    ghost output = { λ fault. Some (fault_text fault) };

    fn fmt<W: fmt::Write>(&self, f: &mut fmt::Formatter<W>) -> fmt::Result {
        match self {
            WalkFault::Memory => f.write_str("out of memory"),
            WalkFault::Board => f.write_str("board refused"),
            WalkFault::Write => f.write_str("write failed"),
            WalkFault::NotFound(missed) => write!(f, "{missed}"),
        }
    }
}

impl From<AllocError> for WalkFault {
    ghost use Rattle.std.specs.Prelude.{◌≡◌};
    ghost use Rattle.ct_walk.specs.declared.fault.WalkFault.TheVariants.{Memory};

    ghost from_gives = { λ _ fault. fault ≡ Memory };

    fn from(_error: AllocError) -> WalkFault {
        WalkFault::Memory
    }
}
