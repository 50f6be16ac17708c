//! What lines state of what acts do.

use crate::reports::Listed;
use ct_names::{Command, Round};

/// What a line states of what an act does.
#[derive(Drop)]
pub enum Statement {
    /// `set 0 7`: a command.
    Command(Command),
    /// `{1.1,2.1}`: a value, or an estimate of any ts.
    Value(Listed),
    /// `{1.1,2.1} ts 0`: an estimate and its ts.
    Estimate(Listed, Round),
}
