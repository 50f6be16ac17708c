//! Why logs are not accepted.

ghost use Rattle.ct_order.specs.Command.{status_of};

use crate::wrong::Wrong;
use ct_streams::{Fault, FileFault, Status};
use std::alloc::AllocError;
use thiserror::Error;

/// Why logs are not accepted. Its text is the line for standard error.
#[derive(Debug, Drop, Error)]
pub enum OrderFault {
    /// This is wrong with them first; what is told of all that is, a line each, and the same as JSON.
    #[error("{text}")]
    Wrong {
        wrong: Wrong,
        text: String,
        json: String,
    },
    /// There are too many of them.
    #[error("limit: at most 1024 logs")]
    Logs,
    /// Standard input is named twice.
    #[error("-: standard input has one log alone")]
    Twice,
    /// A file is not read.
    #[error("{text}")]
    File {
        fault: FileFault,
        text: String,
    },
    /// A file that is followed is another now, or shorter than what was read of it.
    #[error("{0}")]
    Changed(String),
    /// The writer failed.
    #[error("write failed")]
    Write,
    /// Memory was refused.
    #[error("out of memory")]
    Memory,
}

impl Fault for OrderFault {
    ghost ends_with = { λ fault. status_of fault };

    // 1 for logs that are refused, 2 for files that are no logs, 3 for words, 4 for a stream, 5 for memory, 6 for logs that are
    // incomplete, 8 for a limit.
    fn status(&self) -> u8 {
        match self {
            OrderFault::Wrong { wrong, .. } => match wrong {
                Wrong::NoLog => Status::NoRecord.code(),
                Wrong::Incomplete => 6,
                Wrong::Limit => 8,
                Wrong::Refused | Wrong::Unsettled | Wrong::Overtaken => Status::Refused.code(),
            },
            OrderFault::Logs => 8,
            OrderFault::Twice => Status::Words.code(),
            OrderFault::File { .. } | OrderFault::Changed(_) | OrderFault::Write => {
                Status::Stream.code()
            }
            OrderFault::Memory => Status::Memory.code(),
        }
    }
}

impl From<AllocError> for OrderFault {
    ghost use Rattle.std.specs.Prelude.{◌≡◌};
    ghost use Rattle.ct_order.specs.declared.order_fault.OrderFault.TheVariants.{Memory};

    ghost from_gives = { λ _ fault. fault ≡ Memory };

    fn from(_error: AllocError) -> OrderFault {
        OrderFault::Memory
    }
}
