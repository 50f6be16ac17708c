//! How files are checked.

/// How files are checked.
#[derive(Clone, Copy, Debug, Drop, PartialEq, Eq)]
pub struct CheckOptions {
    /// The report of each record is compared with the one in the file beside it.
    pub expects: bool,
    /// No line is written.
    pub quiet: bool,
}
