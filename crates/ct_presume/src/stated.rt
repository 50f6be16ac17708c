//! What logs state of envelopes.

use ct_grammar::{Listed, Name, Statement};
use ct_names::{Command, Message, Round};

/// The command that is stated of a message.
pub(crate) fn command_in(said: &Statement) -> Option<Command> {
    match said {
        Statement::Command(command) => Some(*command),
        Statement::Value(_) | Statement::Estimate(..) => None,
    }
}

/// The ts that is stated of an estimate.
pub(crate) fn ts_in(said: &Statement) -> Option<Round> {
    match said {
        Statement::Estimate(_, ts) => Some(*ts),
        Statement::Command(_) | Statement::Value(_) => None,
    }
}

/// The first message that a stated value names and these don't have.
pub(crate) fn first_beside(said: &Statement, messages: &[Message]) -> Option<Name> {
    names_in(said)
        .iter()
        .copied()
        .find(|name| !has(messages, *name))
}

/// Whether a stated value names the message.
pub(crate) fn names(said: &Statement, wanted: Name) -> bool {
    names_in(said).iter().any(|name| name.origin == wanted.origin && name.number == wanted.number)
}

/// Whether the messages have that of this name.
pub(crate) fn has(messages: &[Message], name: Name) -> bool {
    messages.iter().any(|message| message.origin() == name.origin
        && message.number() == name.number)
}

// The names of the messages that a stated value lists.
fn names_in(said: &Statement) -> &[Name] {
    match said {
        Statement::Command(_) => &[],
        Statement::Value(listed) | Statement::Estimate(listed, _) => names_of(listed),
    }
}

fn names_of(listed: &Listed) -> &[Name] {
    listed.names.as_slice()
}
