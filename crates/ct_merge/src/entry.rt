//! What lines of logs say.

use crate::log_line::LogLine;
use ct_grammar::{Given, Goal, Misfit};
use ct_names::Member;

/// What a line of a log says.
#[derive(Drop)]
pub(crate) enum Entry {
    /// Nothing.
    Blank,
    /// A number of the group.
    Given(Given),
    /// What this member did.
    Told(Member, LogLine),
    /// What has to be so of this member there.
    Expected(Member, Goal),
}

/// Why a line does not stand in a log.
#[derive(Drop)]
pub enum NoEntry {
    /// It is no UTF-8.
    NoText,
    /// The grammar has no such line.
    NoLine(Misfit),
    /// It is no act of one member.
    NoAct,
    /// The network does it.
    Network,
    /// An envelope is named by its serial.
    Serial,
    /// An envelope is named without its sender.
    NoSender,
    /// This member did it, and the log is another's.
    Other(Member),
    /// What it expects is not one fact of one member as it is there.
    NoFact,
    /// It expects a fact that depends on the order of the others.
    OpenFact,
    /// It expects a refusal that depends on the order of the others.
    OpenRefusal,
    /// Another number of the group was given before.
    Given(Given),
}
