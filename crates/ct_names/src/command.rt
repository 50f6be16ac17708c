//! What members broadcast.

ghost use Rattle.std.specs.Prelude.{◌≡◌};
ghost use Rattle.ct_names.specs.Command.{is_good};

use crate::limit::REGISTERS;

/// What a message asks of a table of [`REGISTERS`] registers, numbered from 0. The order is that of the variants, then of the
/// fields in turn.
#[derive(Clone, Copy, Debug, PartialEq, Eq, PartialOrd, Ord, Hash)]
pub enum Command {
    /// The register gets the value.
    Set(u8, u64),
    /// The register grows by the amount, up to 18446744073709551615.
    Add(u8, u64),
    /// The second register gets the value of the first.
    Copy(u8, u8),
}

impl Command {
    /// Whether each register is below [`REGISTERS`].
    pub fn good(&self) -> bool
        ensures { result ≡ is_good self.now }
    {
        match *self {
            Command::Set(register, _) => register < REGISTERS,
            Command::Add(register, _) => register < REGISTERS,
            Command::Copy(from, to) => from < REGISTERS && to < REGISTERS,
        }
    }
}
