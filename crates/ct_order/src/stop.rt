//! Why logs are not read on.

use crate::act::Act;
use crate::clash::Clash;
use crate::no_line::NoLine;
use crate::place::Place;
use ct_streams::FileFault;

/// A line that stands in no log.
#[derive(Debug, Drop)]
pub struct Unread {
    /// Where it stands.
    pub place: Place,
    /// Its text, as far as it is shown.
    pub text: String,
    /// What would be right.
    pub why: NoLine,
}

/// A line that contradicts one before it.
#[derive(Debug, Drop)]
pub struct Conflict {
    /// Where it stands.
    pub place: Place,
    /// How many deliveries its process has before it.
    pub at: u64,
    /// What it says.
    pub act: Act,
    /// Its message, or its state.
    pub word: String,
    /// What it contradicts.
    pub clash: Clash,
}

/// Why logs are not read on.
#[derive(Debug, Drop)]
pub enum Stop {
    /// A line stands in no log.
    Line(Unread),
    /// A line contradicts one before it.
    Clash(Conflict),
    /// The file of the log of this place, from 0, is not read.
    File(u32, FileFault),
    /// Memory was refused.
    Memory,
}
