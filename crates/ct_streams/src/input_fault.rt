//! Why an input is not read.

/// Why an input is not read to its end.
#[derive(Clone, Copy, Debug, Drop, PartialEq, Eq)]
pub enum InputFault {
    /// The reader failed.
    Reader,
    /// Memory was refused.
    Memory,
}
