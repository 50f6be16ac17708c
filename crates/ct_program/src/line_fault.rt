//! Why a command line is refused.

use std::alloc::AllocError;

/// Why the words of a command line are refused.
#[derive(Drop)]
pub enum LineFault {
    /// They ask for help or the version, or are none of the program's.
    Clap(clap::Error),
    /// An option's value is no whole number of its range; the line that names it, and says what would be right.
    Range(String),
    /// Memory was refused.
    Memory,
}

impl From<AllocError> for LineFault {
    ghost use Rattle.std.specs.Prelude.{◌≡◌};
    ghost use Rattle.ct_program.specs.declared.line_fault.LineFault.TheVariants.{Memory};

    ghost from_gives = { λ _ fault. fault ≡ Memory };

    fn from(_error: AllocError) -> LineFault {
        LineFault::Memory
    }
}
