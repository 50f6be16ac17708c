//! What a command line asks for.

use crate::free_options::FreeOptions;

/// What the words of a command line ask for, and the name of the file that it is about, `-` where that is standard input.
#[derive(Clone, Copy, Debug, Drop)]
pub struct Asked<'a> {
    /// What they ask for.
    pub call: Call,
    /// The name of the file.
    pub file: &'a str,
}

/// What the words of a command line ask for.
#[derive(Clone, Copy, Debug, Drop, PartialEq, Eq)]
pub enum Call {
    /// To replay the record in the file and report where it leads.
    Replay,
    /// To run a group freely, with these options, and write the record of the run.
    Free(FreeOptions),
}
