//! Why a run isn't completed.

ghost use Rattle.std.specs.Prelude.{◌≡◌, Some};
ghost use Rattle.ct_told.specs.declared.show_fault.ShowFault.TheVariants.{Program};
ghost use Rattle.ct_complete.specs.Faults.{fault_text, of_line_fault, status_of};
ghost use Rattle.ct_complete.specs.declared.complete_fault.CompleteFault.TheVariants.{Show};

use crate::obstacle::Obstacle;
use ct_play::LineFault;
use ct_records::ProgramFault;
use ct_streams::{Fault, Status};
use ct_told::ShowFault;
use std::fmt;

/// Why a run isn't completed, or not written. Its text is the line for standard error.
#[derive(Debug, Drop)]
pub enum CompleteFault {
    /// Something stands in the way of all being done after the turns.
    Hindered(Obstacle),
    /// A cell of the board refused a batch.
    Board,
    /// The input is no record, a step of it is refused, a stream failed, or memory was refused.
    Show(ShowFault),
}

impl Fault for CompleteFault {
    ghost ends_with = { λ fault. status_of fault };

    // 1 where all isn't done, 5 for the board, else that of what is shown of a record.
    fn status(&self) -> u8 {
        match self {
            CompleteFault::Hindered(_) => Status::Refused.code(),
            CompleteFault::Board => Status::Memory.code(),
            CompleteFault::Show(fault) => fault.status(),
        }
    }
}

impl fmt::Display for CompleteFault {
    ghost output = { λ fault. Some (fault_text fault) };

    fn fmt<W: fmt::Write>(&self, f: &mut fmt::Formatter<W>) -> fmt::Result {
        match self {
            CompleteFault::Hindered(obstacle) => {
                f.write_str("not settled: ")?;
                f.write_str(&obstacle.text)
            }
            CompleteFault::Board => f.write_str("board refused"),
            CompleteFault::Show(fault) => write!(f, "{fault}"),
        }
    }
}

impl From<LineFault> for CompleteFault {
    ghost from_gives = { λ line fault. fault ≡ of_line_fault line };

    fn from(line: LineFault) -> CompleteFault {
        match line {
            LineFault::Board => CompleteFault::Board,
            _ => CompleteFault::Show(ShowFault::Program(ProgramFault::Memory)),
        }
    }
}

impl From<ShowFault> for CompleteFault {
    ghost from_gives = { λ show fault. fault ≡ Show show };

    fn from(show: ShowFault) -> CompleteFault {
        CompleteFault::Show(show)
    }
}

impl From<ProgramFault> for CompleteFault {
    ghost from_gives = { λ program fault. fault ≡ Show (Program program) };

    fn from(program: ProgramFault) -> CompleteFault {
        CompleteFault::Show(ShowFault::Program(program))
    }
}
