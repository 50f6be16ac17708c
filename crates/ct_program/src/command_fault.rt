//! Why a program does nothing that its command line asks for.

ghost use Rattle.std.specs.Prelude.{◌≡◌};
ghost use Rattle.ct_program.specs.Commands.{answer_of, command_status, IsOfError};
ghost use Rattle.ct_program.specs.declared.command_fault.CommandFault.TheVariants.{Memory};

use ct_streams::Status;
use std::alloc::{AllocError, AllocFailed};
use std::io;
use thiserror::Error;

/// Why a program does nothing that its command line asks for. Its text is the line for standard error.
#[derive(Clone, Copy, Debug, Drop, PartialEq, Eq, Error)]
pub enum CommandFault {
    /// The words are not UTF-8.
    #[error("arguments")]
    Arguments,
    /// No file is named.
    #[error("no file")]
    NoFile,
    /// No subcommand is named.
    #[error("no subcommand")]
    NoSubcommand,
    /// The help or the version could not be printed.
    #[error("write failed")]
    Write,
    /// Memory was refused.
    #[error("out of memory")]
    Memory,
}

impl CommandFault {
    /// The status that a program ends with: 3 for the words, 4 for a stream, 5 for memory.
    pub fn status(&self) -> u8
        ensures { result ≡ command_status self.now }
    {
        let status = match self {
            CommandFault::Arguments | CommandFault::NoFile | CommandFault::NoSubcommand =>
                Status::Words,
            CommandFault::Write => Status::Stream,
            CommandFault::Memory => Status::Memory,
        };
        status.code()
    }
}

/// The status that a program ends with where `clap` answers its words: 3 where the answer goes to standard error, and 0
/// where it is the help or the version and was printed.
pub fn answer_status(use_stderr: bool, printed: bool) -> Result<u8, CommandFault>
    ensures { result ≡ answer_of use_stderr printed }
{
    if use_stderr {
        Ok(Status::Words.code())
    } else if printed {
        Ok(Status::Done.code())
    } else {
        Err(CommandFault::Write)
    }
}

impl From<io::Error> for CommandFault {
    ghost from_gives = { λ error fault. IsOfError error fault };

    // Why the words of the command line were not read.
    fn from(error: io::Error) -> CommandFault {
        match error.kind() {
            io::ErrorKind::OutOfMemory => CommandFault::Memory,
            _ => CommandFault::Arguments,
        }
    }
}

impl From<AllocError> for CommandFault {
    ghost from_gives = { λ _ fault. fault ≡ Memory };

    fn from(_error: AllocError) -> CommandFault {
        CommandFault::Memory
    }
}

impl<T: Drop> From<AllocFailed<T>> for CommandFault {
    ghost from_gives = { λ _ fault. fault ≡ Memory };

    fn from(_error: AllocFailed<T>) -> CommandFault {
        CommandFault::Memory
    }
}
