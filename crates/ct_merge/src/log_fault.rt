//! Why texts are no logs.

ghost use Rattle.std.specs.Prelude.{◌≡◌};

use crate::entry::NoEntry;
use std::alloc::AllocError;

/// Why a text is no log.
#[derive(Drop)]
pub enum LogFault {
    /// The line of this number, counted from 1, does not stand in a log.
    Line(usize, NoEntry),
    /// Memory was refused.
    Memory,
}

impl From<AllocError> for LogFault {
    ghost use Rattle.std.specs.Prelude.{◌≡◌};
    ghost use Rattle.ct_merge.specs.declared.log_fault.LogFault.TheVariants.{Memory};

    ghost from_gives = { λ _ fault. fault ≡ Memory };

    fn from(_error: AllocError) -> LogFault {
        LogFault::Memory
    }
}
